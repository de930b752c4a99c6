//! What a flag byte says of a point's return.
ghost use Rattle.std.specs.Prelude.{◌≡◌, ◌<◌, ◌≤◌};
ghost use Rattle.laz_point10.specs.Points.{one_return, return_level, return_map};

// LASzip's map of returns, by number of returns and then by return number.
const MAP: [u8; 64] = [
    15, 14, 13, 12, 11, 10, 9, 8, 14, 0, 1, 3, 6, 10, 10, 9, 13, 1, 2, 4, 7, 11, 11, 10, 12, 3, 4,
    5, 8, 12, 12, 11, 11, 6, 7, 8, 9, 13, 13, 12, 10, 10, 11, 12, 13, 14, 14, 13, 9, 10, 11, 12,
    13, 14, 15, 14, 8, 9, 10, 11, 12, 13, 14, 15,
];

// Where the map has a flag byte, 0 to 15.
#[inline(always)]
pub fn return_map(flags: u8) -> usize
    ensures map { result ≡ return_map flags }
    ensures small { result < 16 }
{
    MAP[(flags % 64) as usize] as usize
}

// How far the return number is from the number of returns, 0 to 7.
#[inline(always)]
#[tactic(auto, unfolding(crate::specs::Points::return_level))]
pub fn return_level(flags: u8) -> usize
    ensures level { result ≡ return_level flags }
    ensures small { result < 8 }
{
    (flags / 8 % 8).abs_diff(flags % 8) as usize
}

// 1 if the pulse has one return, else 0.
#[inline(always)]
#[tactic(auto, unfolding(crate::specs::Points::one_return))]
pub fn one_return(flags: u8) -> u32
    ensures one { result ≡ one_return flags }
    ensures small { result ≤ 1 }
{
    if flags / 8 % 8 == 1 { 1 } else { 0 }
}
