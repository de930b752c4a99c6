//! A streaming median.
ghost use Rattle.std.specs.Prelude.{◌≡◌, ◌≤ℤ◌, [], ◌∷◌, true, false, take, drop, int_lt, int_le};
ghost use Rattle.laz_point10.specs.Medians.{IsSorted, middle, no_values, put_in, with_value};

// Five sorted values, and whether the greatest of them is the next to be dropped.
#[derive(Clone, Copy)]
pub struct Median {
    pub values: [i32; 5],
    pub high: bool,
}

// Four sorted values and one more, sorted. No branch: each place has one of its two neighbours or the new value.
#[inline(always)]
fn put_in(a: i32, b: i32, c: i32, d: i32, v: i32) -> [i32; 5]
    ensures { a ≤ℤ b → b ≤ℤ c → c ≤ℤ d → result ≡ put_in v (a ∷ b ∷ c ∷ d ∷ []) }
{
    [
        a.min(v),
        a.max(b.min(v)),
        b.max(c.min(v)),
        c.max(d.min(v)),
        d.max(v),
    ]
}

impl Median {
    // The median of no value.
    pub fn new() -> Median
        ensures { result ≡ no_values }
    {
        Median {
            values: [0; 5],
            high: true,
        }
    }

    // The middle value.
    #[inline(always)]
    pub fn middle(&self) -> i32
        ensures { result ≡ middle self.now }
    {
        self.values[2]
    }

    // The four values that stay: all but the greatest if it is high, else all but the least.
    // They are found by an index. A choice between two lists would be compiled to a branch, mispredicted half of the time.
    #[inline(always)]
    fn kept(&self) -> [i32; 4]
        ensures high { self.now.high ≡ true → result ≡ take 4 self.now.values }
        ensures low { self.now.high ≡ false → result ≡ drop 1 self.now.values }
    {
        let first = usize::from(!self.high);
        let values = &self.values;
        [
            values[first],
            values[first + 1],
            values[first + 2],
            values[first + 3],
        ]
    }

    // Whether it is high after a value.
    #[inline(always)]
    fn is_high_after(&self, v: i32) -> bool
        ensures high { self.now.high ≡ true → result ≡ int_lt v (middle self.now) }
        ensures low { self.now.high ≡ false → result ≡ int_le v (middle self.now) }
    {
        let middle = self.values[2];
        if self.high { v < middle } else { v <= middle }
    }

    // Adds a value. No branch here either: what depends on `high` is selected.
    #[inline(always)]
    pub fn add(&mut self, v: i32)
        ensures { IsSorted self.old.values → self.new ≡ with_value self.old v }
    {
        let high = self.is_high_after(v);
        let [a, b, c, d] = self.kept();
        self.values = put_in(a, b, c, d, v);
        self.high = high;
    }
}
