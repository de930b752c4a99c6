//! Command lines, each with what it says.

use crate::samples::none_is;
use itoa::Buffer;
use las_filter::{Plan, Rule};
use las_info::{ClassTap, ReturnTap, Tap};
use las_thin::Pick;
use las_words::{Command, Packing, WordFault, read_words};
use std::alloc::{AllocError, Global};

// A line for each: words with a blank between two of them, and the command or the index of the first wrong word.
static LINES: &str = "\
lasmerges -i a -o b = usage 0
 = usage 0
LASZIP -i a -o b = usage 0
 -i a -o b = usage 0
laszip2 = usage 0
-i a = usage 0
laszip a = usage 1
laszip -i a b = usage 3
laszip -i a -o b -keep_class 2 = usage 5
laszip -i a -o b -olaz = usage 5
las2las -i a -o b -z c = usage 5
las2las -i a -o b -tally none = usage 6
las2las -i a -o b -tally class -tally return -tally class = usage 10
las2las -i a -o b -thin_raw 0 = usage 6
las2las -i a -o b -thin_raw 2147483648 = usage 6
las2las -i a -o b -thin_raw 5 -thin_raw 5 = usage 7
las2las -i a -o b -lowest = usage 5
las2las -highest -i a -o b = usage 1
las2las -i a -o b -thin_raw 5 -highest -lowest = usage 8
las2las -lowest -i a -o a = usage 5
las2las -drop_repeated -drop_repeated = usage 2
lasinfo -i a -drop_repeated = usage 3
las2las -i a -o b 2 = usage 5
las2las -i a -o b  = usage 5
las2las -i a -o b -Keep_first = usage 5
las2las -i a -o b -keep_first 1 = usage 6
las2las -I a = usage 1
las2las -set_user_data 3 4 = usage 3
laszip -i a -i b -o c = usage 3
laszip -i a -o b -o c = usage 5
laszip -cores 1 -cores 1 = usage 3
laszip -chunk_size 256 -chunk_size 256 -i a -o b = usage 3
las2las -i a -o b -keep_class 2 -keep_class 3 = usage 7
las2las -i a -o b -drop_class 2 3 -drop_class 4 = usage 8
las2las -keep_first -keep_first = usage 2
las2las -olaz -olaz = usage 2
las2las -olas -olas = usage 2
las2las -olas -olaz = usage 2
las2las -olaz -i a -olas = usage 4
las2las -translate_raw_x 1 -translate_raw_x 1 = usage 3
las2las -translate_raw_xyz 1 2 3 -translate_raw_xyz 1 2 3 = usage 5
las2las -set_point_source 1 -set_user_data 1 -set_point_source 1 = usage 5
laszip -i = usage 2
laszip -i a -o = usage 4
laszip -cores = usage 2
laszip -chunk_size = usage 2
las2las -keep_class = usage 2
las2las -drop_return = usage 2
las2las -keep_intensity = usage 2
las2las -keep_intensity 1 = usage 3
las2las -translate_raw_xyz 1 2 = usage 4
las2las -translate_raw_z = usage 2
las2las -i a -o b -set_classification = usage 6
las2las -drop_intensity_above = usage 2
laszip -i  -o b = usage 2
laszip -i a -o  = usage 4
laszip -chunk_size 255 = usage 2
laszip -chunk_size 250001 = usage 2
laszip -chunk_size -256 = usage 2
laszip -chunk_size 0x100 = usage 2
laszip -cores 0 = usage 2
laszip -cores +1 = usage 2
laszip -cores 1. = usage 2
laszip -i a -o b -chunk_size 0 = usage 6
laszip -i a -o b -cores 9 = usage 6
laszip -cores 000000000000000000001 = usage 2
laszip -cores 99999999999999999999 = usage 2
laszip -cores 18446744073709551617 = usage 2
laszip -cores 4294967297 = usage 2
las2las -i a -o b -keep_class 32 = usage 6
las2las -keep_class 2 32 = usage 3
las2las -keep_class 2 -3 = usage 3
las2las -keep_class -i a = usage 2
las2las -keep_class a = usage 2
las2las -keep_class 1 2 000000000000000000003 = usage 4
las2las -keep_class 1  = usage 3
las2las -drop_class 1 31 32 = usage 4
las2las -keep_return 8 = usage 2
las2las -drop_return 7 8 = usage 3
las2las -keep_intensity 2 1 = usage 3
las2las -keep_intensity 65536 65536 = usage 2
las2las -keep_intensity 1 65536 = usage 3
las2las -keep_intensity x = usage 2
las2las -keep_intensity x y = usage 2
las2las -keep_intensity 1 -o = usage 3
las2las -drop_intensity_below 65536 = usage 2
las2las -drop_intensity_above -1 = usage 2
las2las -translate_raw_x 2147483648 = usage 2
las2las -translate_raw_y -2147483649 = usage 2
las2las -translate_raw_z --1 = usage 2
las2las -translate_raw_z - = usage 2
las2las -translate_raw_z 1- = usage 2
las2las -translate_raw_z -+1 = usage 2
las2las -translate_raw_z +1 = usage 2
las2las -translate_raw_z -000000000000000000001 = usage 2
las2las -translate_raw_xyz 1 x = usage 3
las2las -translate_raw_xyz 1 2 -i = usage 4
las2las -set_classification 32 = usage 2
las2las -set_user_data 256 = usage 2
las2las -set_point_source 65536 = usage 2
laszip -cores 0 -zz = usage 2
laszip -zz -cores 0 = usage 1
las2las -i a -o a -keep_class 32 = usage 6
laszip -i a -i = usage 3
laszip -i a -o a -o = usage 5
las2las -keep_class 32 -olas -olaz = usage 2
laszip = usage 1
las2las = usage 1
laszip -i a = usage 3
laszip -o b = usage 3
las2las -o b -keep_class 2 = usage 5
laszip -cores 2 = usage 3
las2las -olaz = usage 2
laszip -i a -o a = usage 4
laszip -o a -i a = usage 2
las2las -cores 2 -o a -olaz -i a = usage 4
las2las -i a.laz -o a.laz -olas = usage 4
laszip -i a -o b = laszip a b 50000 1
laszip -o b -i a = laszip a b 50000 1
laszip -i -o -o -i = laszip -o -i 50000 1
laszip -i a -o b -chunk_size 256 = laszip a b 256 1
laszip -chunk_size 250000 -i a -o b = laszip a b 250000 1
laszip -i a -o b -cores 8 = laszip a b 50000 8
laszip -cores 00000000000000000008 -i a -o b = laszip a b 50000 8
laszip -i a -o A = laszip a A 50000 1
laszip -i a.laz -o b.laz -cores 2 -chunk_size 01000 = laszip a.laz b.laz 1000 2
las2las -i a -o b = las2las a b [] [] plain 50000 1
las2las -i a -o b.laz = las2las a b.laz [] [] packed 50000 1
las2las -i a -o b.LAZ = las2las a b.LAZ [] [] packed 50000 1
las2las -i a -o b.Laz = las2las a b.Laz [] [] plain 50000 1
las2las -i a -o .laz = las2las a .laz [] [] packed 50000 1
las2las -i a -o b.laz.las = las2las a b.laz.las [] [] plain 50000 1
las2las -olas -i a -o b.laz = las2las a b.laz [] [] plain 50000 1
las2las -i a -o b.las -olaz = las2las a b.las [] [] packed 50000 1
las2las -i a -o b -chunk_size 300 -cores 3 -olaz = las2las a b [] [] packed 300 3
las2las -i a -o b -keep_class 0 = las2las a b [Classes(1)] [] plain 50000 1
las2las -i a -o b -keep_class 31 0 = las2las a b [Classes(2147483649)] [] plain 50000 1
las2las -i a -o b -keep_class 2 2 02 = las2las a b [Classes(4)] [] plain 50000 1
las2las -i a -o b -drop_class 5 6 = las2las a b [DropClasses(96)] [] plain 50000 1
las2las -i a -o b -keep_return 0 7 = las2las a b [Returns(129)] [] plain 50000 1
las2las -i a -o b -drop_return 1 = las2las a b [DropReturns(2)] [] plain 50000 1
las2las -i a -o b -keep_first = las2las a b [First] [] plain 50000 1
las2las -i a -o b -keep_last = las2las a b [Last] [] plain 50000 1
las2las -i a -o b -keep_intensity 0 65535 = las2las a b [Intensity(0, 65535)] [] plain 50000 1
las2las -i a -o b -keep_intensity 7 7 = las2las a b [Intensity(7, 7)] [] plain 50000 1
las2las -i a -o b -drop_intensity_below 5 = las2las a b [NotBelow(5)] [] plain 50000 1
las2las -i a -o b -drop_intensity_above 65535 = las2las a b [NotAbove(65535)] [] plain 50000 1
las2las -i a -o b -translate_raw_x -5 = las2las a b [] [Translate(-5, 0, 0)] plain 50000 1
las2las -i a -o b -translate_raw_y 6 = las2las a b [] [Translate(0, 6, 0)] plain 50000 1
las2las -i a -o b -translate_raw_z -00000000000000000007 = las2las a b [] [Translate(0, 0, -7)] plain 50000 1
las2las -i a -o b -translate_raw_xyz -2147483648 7 -0 = las2las a b [] [Translate(-2147483648, 7, 0)] plain 50000 1
las2las -i a -o b -translate_raw_x 2147483647 = las2las a b [] [Translate(2147483647, 0, 0)] plain 50000 1
las2las -i a -o b -set_classification 31 = las2las a b [] [SetClass(31)] plain 50000 1
las2las -i a -o b -set_user_data 255 = las2las a b [] [SetUser(255)] plain 50000 1
las2las -i a -o b -set_point_source 65535 = las2las a b [] [SetSource(65535)] plain 50000 1
las2las -i a -o b -set_user_data 1 -translate_raw_x 2 = las2las a b [] [SetUser(1), Translate(2, 0, 0)] plain 50000 1
las2las -i a -o b -translate_raw_x 2 -set_user_data 1 = las2las a b [] [Translate(2, 0, 0), SetUser(1)] plain 50000 1
las2las -i a -o b -keep_last -keep_class 2 -keep_first = las2las a b [Last, Classes(4), First] [] plain 50000 1
las2las -keep_class 2 5 -i a -drop_return 1 -o b = las2las a b [Classes(36), DropReturns(2)] [] plain 50000 1
las2las -i a -o b -start_at_point 5 -stop_at_point 4 = usage 8
las2las -i a -o b -stop_at_point 4 -start_at_point 5 = usage 8
las2las -stop_at_point 4 -keep_first -start_at_point 5 = usage 5
las2las -start_at_point 4294967296 = usage 2
las2las -stop_at_point -1 = usage 2
las2las -start_at_point = usage 2
las2las -start_at_point 1 -start_at_point 0 = usage 3
las2las -start_at_point 5 -stop_at_point x = usage 4
las2las -start_at_point 5 -stop_at_point 4 -keep_class 32 = usage 4
las2las -i a -o b -start_at_point 5 = las2las a b [] [] plain 50000 1 5 4294967295
las2las -i a -o b -start_at_point 5 -stop_at_point 5 = las2las a b [] [] plain 50000 1 5 5
las2las -start_at_point 4294967295 -i a -o b = las2las a b [] [] plain 50000 1 4294967295 4294967295
las2las -i a -stop_at_point 0 -o b -start_at_point 0 = las2las a b [] [] plain 50000 1 0 0
las2las -i a -o b.laz -stop_at_point 07 -keep_last -cores 2 = las2las a b.laz [Last] [] packed 50000 2 0 7
las2las -i a -o b -thin_raw 0002147483647 = las2las a b [] [] plain 50000 1 First 2147483647
las2las -lowest -i a -o b -thin_raw 1 = las2las a b [] [] plain 50000 1 Lowest 1
las2las -i a -drop_repeated -o b -highest -thin_raw 10 = las2las a b [] [] plain 50000 1 Highest 10 once
las2las -drop_repeated -i a -o b -tally return -tally class = las2las a b [] [] plain 50000 1 once [return, class]
laszip -i a -o b -stop_at_point 1 = usage 5
lasinfo -i a -start_at_point 1 = usage 3
lasinfo = usage 1
lasinfo -i a -o b = usage 3
lasinfo -i a -chunk_size 256 = usage 3
lasinfo -i a -i b = usage 3
lasinfo -i a -tally = usage 4
lasinfo -i a -tally none = usage 4
lasinfo -i a -tally class -tally class = usage 6
lasinfo -i a -tally class -tally return -tally class = usage 8
lasinfo -i a -tally Class = usage 4
lasinfo -tally class = usage 3
lasinfo -i a = lasinfo a [] 1
lasinfo -tally return -i a -tally class -cores 3 = lasinfo a [return, class] 3
lassplit = usage 1
lassplit -i a -o p.las = usage 5
lassplit -i a -split 2 = usage 5
lassplit -o p.las -split 2 = usage 5
lassplit -i a -o p.las -cores 2 = usage 7
lassplit -i a -o p.las -split = usage 6
lassplit -i a -o p.las -split 0 = usage 6
lassplit -split 4294967296 = usage 2
lassplit -split -1 = usage 2
lassplit -split x = usage 2
lassplit -split 000000000000000000001 = usage 2
lassplit -split 2 -split 3 = usage 3
lassplit -split 2 -by_classification = usage 3
lassplit -by_classification -split 0 = usage 2
lassplit -by_classification -cores 2 -by_flightline = usage 4
lassplit -by_flightline -by_return = usage 2
lassplit -by_return -by_return = usage 2
lassplit -by_return 1 = usage 2
lassplit -i a -o p.las -by_class = usage 5
lassplit -i a -o p.las -olaz = usage 5
lassplit -i a -chunk_size 256 = usage 3
lassplit -i a -i b = usage 3
lassplit -by_return -o p.laz -i a = usage 3
lassplit -i a -o p.LAZ -split 2 = usage 4
lassplit -i a -o .laz -split 2 = usage 4
lassplit -i p.las -o p.las -split 2 = usage 4
lassplit -i p_0000000.las -o p.las -split 2 = usage 4
lassplit -o p.las -split 2 -i p_0000123.las = usage 2
lassplit -i p_12345678.las -o p.las -by_return = usage 4
lassplit -i p_4294967295.las -o p.las -by_return = usage 4
lassplit -i p_0000007.LAS -o p.LAS -by_flightline = usage 4
lassplit -i p_0000000 -o p -by_return = usage 4
lassplit -i _0000000.las -o .las -by_return = usage 4
lassplit -i a_0000001_0000002.las -o a_0000001.las -split 2 = usage 4
lassplit -by_return -cores 9 -i p_0000000.las -o p.las = usage 3
lassplit -i p_0000000.las -o p.las -split 0 = usage 6
lassplit -i p_0000000.las -o p.las = usage 5
lassplit -i p.laz -o p.laz = usage 5
lassplit -i a.las -o p.las -split 2 = lassplit a.las p|.las Every(2) 1
lassplit -split 4294967295 -i a -o p.LAS = lassplit a p|.LAS Every(4294967295) 1
lassplit -i a -split 00000000000000000007 -o p = lassplit a p| Every(7) 1
lassplit -by_classification -i a -o p.las = lassplit a p|.las Class 1
lassplit -i a -o p.las -by_flightline -cores 8 = lassplit a p|.las Source 8
lassplit -i a -o p.las -by_return = lassplit a p|.las Return 1
lassplit -i a -o p.Las -by_return = lassplit a p.Las| Return 1
lassplit -i a -o p.las.las -by_return = lassplit a p.las|.las Return 1
lassplit -i a -o .las -by_return = lassplit a |.las Return 1
lassplit -i a -o p.laz.las -by_return = lassplit a p.laz|.las Return 1
lassplit -i p_000000.las -o p.las -by_return = lassplit p_000000.las p|.las Return 1
lassplit -i p_00000000.las -o p.las -by_return = lassplit p_00000000.las p|.las Return 1
lassplit -i p_4294967296.las -o p.las -by_return = lassplit p_4294967296.las p|.las Return 1
lassplit -i p_0000000.LAS -o p.las -by_return = lassplit p_0000000.LAS p|.las Return 1
lassplit -i p_0000000.las -o p -by_return = lassplit p_0000000.las p| Return 1
lassplit -i p_0000000 -o p.las -by_return = lassplit p_0000000 p|.las Return 1
lassplit -i p_000000a.las -o p.las -by_return = lassplit p_000000a.las p|.las Return 1
lassplit -i p_+000001.las -o p.las -by_return = lassplit p_+000001.las p|.las Return 1
lassplit -i p-0000000.las -o p.las -by_return = lassplit p-0000000.las p|.las Return 1
lassplit -i q_0000000.las -o p.las -by_return = lassplit q_0000000.las p|.las Return 1
lassplit -i p_é00000.las -o p.las -by_return = lassplit p_é00000.las p|.las Return 1
lassplit -i p_ -o p.las -by_return = lassplit p_ p|.las Return 1
lasmerge = usage 1
lasmerge -i a = usage 3
lasmerge -o b = usage 3
lasmerge -i a -i b -cores 2 = usage 7
lasmerge -i a -i = usage 4
lasmerge -i a -i  -o b = usage 4
lasmerge -i a -o b -o c = usage 5
lasmerge -i a b = usage 3
lasmerge -i a -o b -olas -olaz = usage 6
lasmerge -olaz -olaz = usage 2
lasmerge -i a -o b -z c = usage 5
lasmerge -i a -o b -keep_class 2 = usage 5
lasmerge -i a -o b -split 2 = usage 5
lasmerge -chunk_size 255 = usage 2
lasmerge -i a -i b -o a = usage 6
lasmerge -i a -i b -o b = usage 6
lasmerge -o b -i a -i b = usage 2
lasmerge -i a -o a -cores 9 = usage 6
lasmerge -i 1 -i 2 -i 3 -i 4 -i 5 -i 6 -i 7 -i 8 -i 9 -i 10 -i 11 -i 12 -i 13 -i 14 -i 15 -i 16 -i 17 -i 18 -i 19 \
    -i 20 -i 21 -i 22 -i 23 -i 24 -i 25 -i 26 -i 27 -i 28 -i 29 -i 30 -i 31 -i 32 -o a -i 33 = usage 67
lasmerge -i 1 -i 2 -i 3 -i 4 -i 5 -i 6 -i 7 -i 8 -i 9 -i 10 -i 11 -i 12 -i 13 -i 14 -i 15 -i 16 -i 17 -i 18 -i 19 \
    -i 20 -i 21 -i 22 -i 23 -i 24 -i 25 -i 26 -i 27 -i 28 -i 29 -i 30 -i 31 -i 32 -i = usage 65
lasmerge -i 1 -i 2 -i 3 -i 4 -i 5 -i 6 -i 7 -i 8 -i 9 -i 10 -i 11 -i 12 -i 13 -i 14 -i 15 -i 16 -i 17 -i 18 -i 19 \
    -i 20 -i 21 -i 22 -i 23 -i 24 -i 25 -i 26 -i 27 -i 28 -i 29 -i 30 -i 31 -i 32 -o 32 = usage 66
lasmerge -i 1 -i 2 -i 3 -i 4 -i 5 -i 6 -i 7 -i 8 -i 9 -i 10 -i 11 -i 12 -i 13 -i 14 -i 15 -i 16 -i 17 -i 18 -i 19 \
    -i 20 -i 21 -i 22 -i 23 -i 24 -i 25 -i 26 -i 27 -i 28 -i 29 -i 30 -i 31 -i 32 -o 33 = \
    lasmerge [1, 2, 3, 4, 5, 6, 7, 8, 9, 10, 11, 12, 13, 14, 15, 16, 17, 18, 19, 20, 21, 22, 23, 24, 25, 26, 27, 28, \
    29, 30, 31, 32] 33 plain 50000 1
lasmerge -i a -o b = lasmerge [a] b plain 50000 1
lasmerge -i a -i a -o b = lasmerge [a, a] b plain 50000 1
lasmerge -i b.laz -o c.laz -i a = lasmerge [b.laz, a] c.laz packed 50000 1
lasmerge -i a -o c.LAZ -olas = lasmerge [a] c.LAZ plain 50000 1
lasmerge -olaz -i b -i a -o c -chunk_size 300 -cores 3 = lasmerge [b, a] c packed 300 3
lasmerge -i -i -i -o -o -olaz = lasmerge [-i, -o] -olaz plain 50000 1
lasmerge -i a.laz -o c.laz -copy_chunks = lasmerge [a.laz] c.laz packed 50000 copied 1
lasmerge -copy_chunks -olaz -i a -o c.las -cores 8 = lasmerge [a] c.las packed 50000 copied 8
lasmerge -i a.laz -o c.las -copy_chunks = usage 4
lasmerge -o c -i a -copy_chunks = usage 2
lasmerge -i c.las -o c.las -copy_chunks = usage 4
lasmerge -copy_chunks -i a -o c.laz -copy_chunks = usage 6
lasmerge -copy_chunks -olas -i a -o c.laz = usage 2
lasmerge -olas -i a -o c.laz -copy_chunks = usage 6
lasmerge -copy_chunks -chunk_size 256 = usage 2
lasmerge -chunk_size 256 -copy_chunks = usage 3
lasmerge -copy_chunks 1 = usage 2
lasmerge -o c.las -copy_chunks = usage 4
las2las -copy_chunks = usage 1
make = usage 1
make -o a -z b -points 1 = usage 7
make -o a -z b -seed 1 = usage 7
make -o a -points 1 -seed 1 = usage 7
make -z b -points 1 -seed 1 = usage 7
make -i a = usage 1
make -olaz = usage 1
make -points = usage 2
make -points 10000001 = usage 2
make -points -1 = usage 2
make -seed 4294967296 = usage 2
make -seed 000000000000000000001 = usage 2
make -format 4 = usage 2
make -format = usage 2
make -extra 193 = usage 2
make -extra x = usage 2
make -chunk_size 250001 = usage 2
make -z  -o a = usage 2
make -z a -z b = usage 3
make -points 1 -points 1 = usage 3
make -seed 1 -seed 2 = usage 3
make -format 0 -format 0 = usage 3
make -extra 0 -extra 0 = usage 3
make -o a -z a -points 1 -seed 1 = usage 4
make -z a -points 1 -seed 1 -o a = usage 2
make -o a -z a -points 1 -seed 1 -cores 0 = usage 10
make -o a -z a = usage 5
make -o a -z b -points 0 -seed 0 = make a b 0 0 0 0 50000 1
make -o m.las -z m.laz -points 200000 -seed 7 -format 3 -extra 2 -cores 4 = make m.las m.laz 200000 7 3 2 50000 4
make -seed 4294967295 -points 10000000 -z b -o a -extra 192 -chunk_size 256 = make a b 10000000 4294967295 0 192 256 1
make -o -z -z -o -points 0007 -seed 00000000000000000008 -format 02 = make -z -o 7 8 2 0 50000 1
make -o a.laz -z b.las -points 1 -seed 1 -cores 8 = make a.laz b.las 1 1 0 0 50000 8
";

#[test]
fn lines_are_read(rt: HostRuntime) {
    none_is(first_wrong_of(rt.alloc()), &rt);
}

// The first of all rows that is not answered as it says, or none.
fn first_wrong_of(alloc: Global) -> &'static str {
    let mut taps = Vec::new(alloc);
    match add_taps(alloc, &mut taps) {
        Ok(()) => first_wrong(alloc, &taps),
        Err(_) => "memory",
    }
}

// The same if these taps may be named.
fn first_wrong(alloc: Global, taps: &[Box<dyn Tap>]) -> &'static str {
    let mut count = 0u32;
    for row in LINES.lines() {
        if !is_answered(alloc, row, taps).unwrap_or(false) {
            return row;
        }
        count = count.saturating_add(1);
    }
    if count == 324 { "" } else { "not 324 rows" }
}

// Whether a row is answered as it says.
fn is_answered(alloc: Global, row: &str, taps: &[Box<dyn Tap>]) -> Result<bool, AllocError> {
    let (line, said) = row.split_once(" =").unwrap_or((row, "no answer"));
    let mut words = Vec::new(alloc);
    if !line.is_empty() {
        say(alloc, &mut words, line)?;
    }
    Ok(is_answer(alloc, &words, said, taps))
}

// Whether this is the answer to words.
fn is_answer(alloc: Global, words: &[String], said: &str, taps: &[Box<dyn Tap>]) -> bool {
    let mut rest = Rest {
        bytes: said.as_bytes(),
        is_right: true,
    };
    rest.answer(alloc, words, taps);
    rest.is_right && rest.bytes.is_empty()
}

// Appends the words of a line.
fn say(alloc: Global, words: &mut Vec<String>, line: &str) -> Result<(), AllocError> {
    for word in line.split(' ') {
        words.push(String::from_str(alloc, word)?)?;
    }
    Ok(())
}

// Adds the taps that may be named.
fn add_taps(alloc: Global, taps: &mut Vec<Box<dyn Tap>>) -> Result<(), AllocError> {
    taps.push(Box::new(alloc, ClassTap::new(alloc))?)?;
    taps.push(Box::new(alloc, ReturnTap::new(alloc))?)?;
    Ok(())
}

// What is left of what a row says, and whether the answer was so as far as it was taken.
#[derive(Drop)]
struct Rest<'a> {
    bytes: &'a [u8],
    is_right: bool,
}

impl<'a> Rest<'a> {
    // Takes a text.
    fn text(&mut self, text: &str) {
        match self.bytes.strip_prefix(text.as_bytes()) {
            Some(bytes) => self.bytes = bytes,
            None => self.is_right = false,
        }
    }

    // Takes a word after a blank.
    fn word(&mut self, word: &str) {
        self.text(" ");
        self.text(word);
    }

    // Takes the digits of a number.
    fn digits(&mut self, number: u32) {
        let mut buffer = Buffer::new();
        self.text(buffer.format(number));
    }

    // Takes a number after a blank.
    fn number(&mut self, number: u32) {
        self.text(" ");
        self.digits(number);
    }

    // Takes words, each after a blank.
    fn words(&mut self, words: &[&str]) {
        for word in words {
            self.word(*word);
        }
    }

    // Takes numbers, each after a blank.
    fn numbers(&mut self, numbers: &[u32]) {
        for number in numbers {
            self.number(*number);
        }
    }

    // Takes the names of tallies, if there are some.
    fn tallies(&mut self, names: &[String]) {
        if !names.is_empty() {
            self.names(names);
        }
    }

    // Takes names in brackets, after a blank.
    fn names(&mut self, names: &[String]) {
        self.word("[");
        for (i, name) in names.iter().enumerate() {
            self.text(if i > 0 { ", " } else { "" });
            self.text(name.as_str());
        }
        self.text("]");
    }

    // Takes how an output is written.
    fn packing(&mut self, packing: Packing) {
        self.word(if packing.packed { "packed" } else { "plain" });
        self.number(packing.chunk);
    }

    // Takes the filters and the changes of a plan.
    fn plan(&mut self, alloc: Global, plan: &Plan) {
        match format!(in alloc; " {:?} {:?}", plan.keeps, plan.changes) {
            Ok(shown) => self.text(shown.as_str()),
            Err(_) => self.is_right = false,
        }
    }

    // Takes a rule.
    fn rule(&mut self, rule: Rule) {
        match rule {
            Rule::Every(count) => {
                self.word("Every(");
                self.digits(count);
                self.text(")");
            }
            Rule::Class => self.word("Class"),
            Rule::Source => self.word("Source"),
            Rule::Return => self.word("Return"),
        }
    }

    // Takes the places of a range of records, unless it is the whole.
    fn range(&mut self, start: u32, stop: u32) {
        if start != 0 || stop != u32::MAX {
            self.number(start);
            self.number(stop);
        }
    }

    // Takes a sieve, if it does not let every record pass.
    fn sieve(&mut self, step: Option<u32>, pick: Pick, unique: bool) {
        if let Some(step) = step {
            self.word(pick_name(pick));
            self.number(step);
        }
        if unique {
            self.word("once");
        }
    }

    // Takes the answer to words.
    fn answer(&mut self, alloc: Global, words: &[String], taps: &[Box<dyn Tap>]) {
        match read_words(alloc, words, taps) {
            Ok(command) => self.command(alloc, &command),
            Err(fault) => self.fault(fault),
        }
    }

    // Takes what is wrong with words.
    fn fault(&mut self, fault: WordFault) {
        match fault {
            WordFault::Usage(index) => {
                self.word("usage");
                self.number(u32::try_from(index).unwrap_or(u32::MAX));
            }
            WordFault::Memory => self.is_right = false,
        }
    }

    // Takes a command.
    fn command(&mut self, alloc: Global, command: &Command) {
        match command {
            Command::Laszip {
                input,
                output,
                chunk,
                workers,
            } => {
                self.words(&["laszip", input.as_str(), output.as_str()]);
                self.numbers(&[*chunk, *workers]);
            }
            Command::Lasinfo {
                input,
                tallies,
                workers,
            } => {
                self.words(&["lasinfo", input.as_str()]);
                self.names(tallies);
                self.number(*workers);
            }
            other => self.parting_or_making(alloc, other),
        }
    }

    // Takes a command that splits or makes files, or another one.
    fn parting_or_making(&mut self, alloc: Global, command: &Command) {
        match command {
            Command::Lassplit {
                input,
                stem,
                end,
                rule,
                workers,
            } => {
                self.words(&["lassplit", input.as_str(), stem.as_str()]);
                self.text("|");
                self.text(end.as_str());
                self.rule(*rule);
                self.number(*workers);
            }
            Command::Make {
                output,
                packed,
                points,
                seed,
                format,
                extra,
                chunk,
                workers,
            } => {
                self.words(&["make", output.as_str(), packed.as_str()]);
                let (format, extra) = (u32::from(*format), u32::from(*extra));
                self.numbers(&[*points, *seed, format, extra, *chunk, *workers]);
            }
            other => self.merging(alloc, other),
        }
    }

    // Takes a command that merges, or another one.
    fn merging(&mut self, alloc: Global, command: &Command) {
        match command {
            Command::Lasmerge {
                inputs,
                output,
                packing,
                workers,
                copy,
            } => {
                self.word("lasmerge");
                self.names(inputs);
                self.word(output.as_str());
                self.packing(*packing);
                self.text(if *copy { " copied" } else { "" });
                self.number(*workers);
            }
            other => self.changing(alloc, other),
        }
    }

    // Takes a command that filters and changes.
    fn changing(&mut self, alloc: Global, command: &Command) {
        match command {
            Command::Las2las {
                input,
                output,
                plan,
                packing,
                workers,
                start,
                stop,
                step,
                pick,
                unique,
                tallies,
            } => {
                self.words(&["las2las", input.as_str(), output.as_str()]);
                self.plan(alloc, plan);
                self.packing(*packing);
                self.number(*workers);
                self.range(*start, *stop);
                self.sieve(*step, *pick, *unique);
                self.tallies(tallies);
            }
            _ => self.is_right = false,
        }
    }
}

// The name of what stays of a cell.
fn pick_name(pick: Pick) -> &'static str {
    match pick {
        Pick::First => "First",
        Pick::Lowest => "Lowest",
        Pick::Highest => "Highest",
    }
}
