//! What an Intel Xeon processor gave for these operands: tools/record_integers.sh runs its instructions again and
//! compares. Numbers are hexadecimal, widths decimal, flags one digit: 8 carry, 4 zero, 2 sign, 1 over.

// Width and two operands, then result and flags of add, or, adc without and with carry, sbb without and with
// borrow, and, sub, xor.
pub const ARITHMETIC: &str = "\
8 0 0 0 4 0 4 0 4 1 0 0 4 ff a 0 4 0 4 0 4
8 0 1 1 0 1 0 1 0 2 0 ff a fe a 0 4 ff a 1 0
8 1 1 2 0 1 0 2 0 3 0 0 4 ff a 1 0 0 4 0 4
8 7f 1 80 3 7f 0 80 3 81 3 7e 0 7d 0 1 0 7e 0 7e 0
8 80 1 81 2 81 2 81 2 82 2 7f 1 7e 1 0 4 7f 1 81 2
8 80 80 0 d 80 2 0 d 1 9 0 4 ff a 80 2 0 4 0 4
8 7f 80 ff 2 ff 2 ff 2 0 c ff b fe b 0 4 ff b ff 2
8 ff 1 0 c ff 2 0 c 1 8 fe 2 fd 2 1 0 fe 2 fe 2
8 ff ff fe a ff 2 fe a ff a 0 4 ff a ff 2 0 4 0 4
8 0 ff ff 2 ff 2 ff 2 0 c 1 8 0 c 0 4 1 8 ff 2
8 0 80 80 2 80 2 80 2 81 2 80 b 7f 8 0 4 80 b 80 2
8 9e3779b97f4a7c15 d1b54a32d192ed03 18 0 17 0 18 0 19 0 12 0 11 0 1 0 12 0 16 0
8 d1b54a32d192ed03 9e3779b97f4a7c15 18 0 17 0 18 0 19 0 ee a ed a 1 0 ee a 16 0
16 0 0 0 4 0 4 0 4 1 0 0 4 ffff a 0 4 0 4 0 4
16 0 1 1 0 1 0 1 0 2 0 ffff a fffe a 0 4 ffff a 1 0
16 1 1 2 0 1 0 2 0 3 0 0 4 ffff a 1 0 0 4 0 4
16 7fff 1 8000 3 7fff 0 8000 3 8001 3 7ffe 0 7ffd 0 1 0 7ffe 0 7ffe 0
16 8000 1 8001 2 8001 2 8001 2 8002 2 7fff 1 7ffe 1 0 4 7fff 1 8001 2
16 8000 8000 0 d 8000 2 0 d 1 9 0 4 ffff a 8000 2 0 4 0 4
16 7fff 8000 ffff 2 ffff 2 ffff 2 0 c ffff b fffe b 0 4 ffff b ffff 2
16 ffff 1 0 c ffff 2 0 c 1 8 fffe 2 fffd 2 1 0 fffe 2 fffe 2
16 ffff ffff fffe a ffff 2 fffe a ffff a 0 4 ffff a ffff 2 0 4 0 4
16 0 ffff ffff 2 ffff 2 ffff 2 0 c 1 8 0 c 0 4 1 8 ffff 2
16 0 8000 8000 2 8000 2 8000 2 8001 2 8000 b 7fff 8 0 4 8000 b 8000 2
16 9e3779b97f4a7c15 d1b54a32d192ed03 6918 8 fd17 2 6918 8 6919 8 8f12 b 8f11 b 6c01 0 8f12 b 9116 2
16 d1b54a32d192ed03 9e3779b97f4a7c15 6918 8 fd17 2 6918 8 6919 8 70ee 1 70ed 1 6c01 0 70ee 1 9116 2
32 0 0 0 4 0 4 0 4 1 0 0 4 ffffffff a 0 4 0 4 0 4
32 0 1 1 0 1 0 1 0 2 0 ffffffff a fffffffe a 0 4 ffffffff a 1 0
32 1 1 2 0 1 0 2 0 3 0 0 4 ffffffff a 1 0 0 4 0 4
32 7fffffff 1 80000000 3 7fffffff 0 80000000 3 80000001 3 7ffffffe 0 7ffffffd 0 1 0 7ffffffe 0 7ffffffe 0
32 80000000 1 80000001 2 80000001 2 80000001 2 80000002 2 7fffffff 1 7ffffffe 1 0 4 7fffffff 1 80000001 2
32 80000000 80000000 0 d 80000000 2 0 d 1 9 0 4 ffffffff a 80000000 2 0 4 0 4
32 7fffffff 80000000 ffffffff 2 ffffffff 2 ffffffff 2 0 c ffffffff b fffffffe b 0 4 ffffffff b ffffffff 2
32 ffffffff 1 0 c ffffffff 2 0 c 1 8 fffffffe 2 fffffffd 2 1 0 fffffffe 2 fffffffe 2
32 ffffffff ffffffff fffffffe a ffffffff 2 fffffffe a ffffffff a 0 4 ffffffff a ffffffff 2 0 4 0 4
32 0 ffffffff ffffffff 2 ffffffff 2 ffffffff 2 0 c 1 8 0 c 0 4 1 8 ffffffff 2
32 0 80000000 80000000 2 80000000 2 80000000 2 80000001 2 80000000 b 7fffffff 8 0 4 80000000 b 80000000 2
32 9e3779b97f4a7c15 d1b54a32d192ed03 50dd6918 8 ffdafd17 2 50dd6918 8 50dd6919 8 adb78f12 b adb78f11 b 51026c01 0 adb78f12 b aed89116 2
32 d1b54a32d192ed03 9e3779b97f4a7c15 50dd6918 8 ffdafd17 2 50dd6918 8 50dd6919 8 524870ee 1 524870ed 1 51026c01 0 524870ee 1 aed89116 2
64 0 0 0 4 0 4 0 4 1 0 0 4 ffffffffffffffff a 0 4 0 4 0 4
64 0 1 1 0 1 0 1 0 2 0 ffffffffffffffff a fffffffffffffffe a 0 4 ffffffffffffffff a 1 0
64 1 1 2 0 1 0 2 0 3 0 0 4 ffffffffffffffff a 1 0 0 4 0 4
64 7fffffffffffffff 1 8000000000000000 3 7fffffffffffffff 0 8000000000000000 3 8000000000000001 3 7ffffffffffffffe 0 7ffffffffffffffd 0 1 0 7ffffffffffffffe 0 7ffffffffffffffe 0
64 8000000000000000 1 8000000000000001 2 8000000000000001 2 8000000000000001 2 8000000000000002 2 7fffffffffffffff 1 7ffffffffffffffe 1 0 4 7fffffffffffffff 1 8000000000000001 2
64 8000000000000000 8000000000000000 0 d 8000000000000000 2 0 d 1 9 0 4 ffffffffffffffff a 8000000000000000 2 0 4 0 4
64 7fffffffffffffff 8000000000000000 ffffffffffffffff 2 ffffffffffffffff 2 ffffffffffffffff 2 0 c ffffffffffffffff b fffffffffffffffe b 0 4 ffffffffffffffff b ffffffffffffffff 2
64 ffffffffffffffff 1 0 c ffffffffffffffff 2 0 c 1 8 fffffffffffffffe 2 fffffffffffffffd 2 1 0 fffffffffffffffe 2 fffffffffffffffe 2
64 ffffffffffffffff ffffffffffffffff fffffffffffffffe a ffffffffffffffff 2 fffffffffffffffe a ffffffffffffffff a 0 4 ffffffffffffffff a ffffffffffffffff 2 0 4 0 4
64 0 ffffffffffffffff ffffffffffffffff 2 ffffffffffffffff 2 ffffffffffffffff 2 0 c 1 8 0 c 0 4 1 8 ffffffffffffffff 2
64 0 8000000000000000 8000000000000000 2 8000000000000000 2 8000000000000000 2 8000000000000001 2 8000000000000000 b 7fffffffffffffff 8 0 4 8000000000000000 b 8000000000000000 2
64 9e3779b97f4a7c15 d1b54a32d192ed03 6fecc3ec50dd6918 9 dfb77bbbffdafd17 2 6fecc3ec50dd6918 9 6fecc3ec50dd6919 9 cc822f86adb78f12 a cc822f86adb78f11 a 9035483051026c01 2 cc822f86adb78f12 a 4f82338baed89116 0
64 d1b54a32d192ed03 9e3779b97f4a7c15 6fecc3ec50dd6918 9 dfb77bbbffdafd17 2 6fecc3ec50dd6918 9 6fecc3ec50dd6919 9 337dd079524870ee 0 337dd079524870ed 0 9035483051026c01 2 337dd079524870ee 0 4f82338baed89116 0
";

// Width, operand and count, then the results of rol, ror, shl, shr, sar.
pub const SHIFTS: &str = "\
8 81 0 81 81 81 81 81
8 81 1 3 c0 2 40 c0
8 81 7 c0 3 80 1 ff
8 81 9 3 c0 0 0 ff
8 81 1f c0 3 0 0 ff
8 81 20 81 81 81 81 81
8 81 3f c0 3 0 0 ff
8 81 40 81 81 81 81 81
8 81 ff c0 3 0 0 ff
8 9e3779b97f4a7c15 0 15 15 15 15 15
8 9e3779b97f4a7c15 1 2a 8a 2a a a
8 9e3779b97f4a7c15 7 8a 2a 80 0 0
8 9e3779b97f4a7c15 9 2a 8a 0 0 0
8 9e3779b97f4a7c15 1f 8a 2a 0 0 0
8 9e3779b97f4a7c15 20 15 15 15 15 15
8 9e3779b97f4a7c15 3f 8a 2a 0 0 0
8 9e3779b97f4a7c15 40 15 15 15 15 15
8 9e3779b97f4a7c15 ff 8a 2a 0 0 0
16 8001 0 8001 8001 8001 8001 8001
16 8001 1 3 c000 2 4000 c000
16 8001 7 c0 300 80 100 ff00
16 8001 9 300 c0 200 40 ffc0
16 8001 1f c000 3 0 0 ffff
16 8001 20 8001 8001 8001 8001 8001
16 8001 3f c000 3 0 0 ffff
16 8001 40 8001 8001 8001 8001 8001
16 8001 ff c000 3 0 0 ffff
16 9e3779b97f4a7c15 0 7c15 7c15 7c15 7c15 7c15
16 9e3779b97f4a7c15 1 f82a be0a f82a 3e0a 3e0a
16 9e3779b97f4a7c15 7 abe 2af8 a80 f8 f8
16 9e3779b97f4a7c15 9 2af8 abe 2a00 3e 3e
16 9e3779b97f4a7c15 1f be0a f82a 0 0 0
16 9e3779b97f4a7c15 20 7c15 7c15 7c15 7c15 7c15
16 9e3779b97f4a7c15 3f be0a f82a 0 0 0
16 9e3779b97f4a7c15 40 7c15 7c15 7c15 7c15 7c15
16 9e3779b97f4a7c15 ff be0a f82a 0 0 0
32 80000001 0 80000001 80000001 80000001 80000001 80000001
32 80000001 1 3 c0000000 2 40000000 c0000000
32 80000001 7 c0 3000000 80 1000000 ff000000
32 80000001 9 300 c00000 200 400000 ffc00000
32 80000001 1f c0000000 3 80000000 1 ffffffff
32 80000001 20 80000001 80000001 80000001 80000001 80000001
32 80000001 3f c0000000 3 80000000 1 ffffffff
32 80000001 40 80000001 80000001 80000001 80000001 80000001
32 80000001 ff c0000000 3 80000000 1 ffffffff
32 9e3779b97f4a7c15 0 7f4a7c15 7f4a7c15 7f4a7c15 7f4a7c15 7f4a7c15
32 9e3779b97f4a7c15 1 fe94f82a bfa53e0a fe94f82a 3fa53e0a 3fa53e0a
32 9e3779b97f4a7c15 7 a53e0abf 2afe94f8 a53e0a80 fe94f8 fe94f8
32 9e3779b97f4a7c15 9 94f82afe abfa53e 94f82a00 3fa53e 3fa53e
32 9e3779b97f4a7c15 1f bfa53e0a fe94f82a 80000000 0 0
32 9e3779b97f4a7c15 20 7f4a7c15 7f4a7c15 7f4a7c15 7f4a7c15 7f4a7c15
32 9e3779b97f4a7c15 3f bfa53e0a fe94f82a 80000000 0 0
32 9e3779b97f4a7c15 40 7f4a7c15 7f4a7c15 7f4a7c15 7f4a7c15 7f4a7c15
32 9e3779b97f4a7c15 ff bfa53e0a fe94f82a 80000000 0 0
64 8000000000000001 0 8000000000000001 8000000000000001 8000000000000001 8000000000000001 8000000000000001
64 8000000000000001 1 3 c000000000000000 2 4000000000000000 c000000000000000
64 8000000000000001 7 c0 300000000000000 80 100000000000000 ff00000000000000
64 8000000000000001 9 300 c0000000000000 200 40000000000000 ffc0000000000000
64 8000000000000001 1f c0000000 300000000 80000000 100000000 ffffffff00000000
64 8000000000000001 20 180000000 180000000 100000000 80000000 ffffffff80000000
64 8000000000000001 3f c000000000000000 3 8000000000000000 1 ffffffffffffffff
64 8000000000000001 40 8000000000000001 8000000000000001 8000000000000001 8000000000000001 8000000000000001
64 8000000000000001 ff c000000000000000 3 8000000000000000 1 ffffffffffffffff
64 9e3779b97f4a7c15 0 9e3779b97f4a7c15 9e3779b97f4a7c15 9e3779b97f4a7c15 9e3779b97f4a7c15 9e3779b97f4a7c15
64 9e3779b97f4a7c15 1 3c6ef372fe94f82b cf1bbcdcbfa53e0a 3c6ef372fe94f82a 4f1bbcdcbfa53e0a cf1bbcdcbfa53e0a
64 9e3779b97f4a7c15 7 1bbcdcbfa53e0acf 2b3c6ef372fe94f8 1bbcdcbfa53e0a80 13c6ef372fe94f8 ff3c6ef372fe94f8
64 9e3779b97f4a7c15 9 6ef372fe94f82b3c acf1bbcdcbfa53e 6ef372fe94f82a00 4f1bbcdcbfa53e ffcf1bbcdcbfa53e
64 9e3779b97f4a7c15 1f bfa53e0acf1bbcdc fe94f82b3c6ef372 bfa53e0a80000000 13c6ef372 ffffffff3c6ef372
64 9e3779b97f4a7c15 20 7f4a7c159e3779b9 7f4a7c159e3779b9 7f4a7c1500000000 9e3779b9 ffffffff9e3779b9
64 9e3779b97f4a7c15 3f cf1bbcdcbfa53e0a 3c6ef372fe94f82b 8000000000000000 1 ffffffffffffffff
64 9e3779b97f4a7c15 40 9e3779b97f4a7c15 9e3779b97f4a7c15 9e3779b97f4a7c15 9e3779b97f4a7c15 9e3779b97f4a7c15
64 9e3779b97f4a7c15 ff cf1bbcdcbfa53e0a 3c6ef372fe94f82b 8000000000000000 1 ffffffffffffffff
";

// Width and two factors, then the low and the high half of mul and of imul.
pub const PRODUCTS: &str = "\
8 0 ff 0 0 0 0
8 1 ff ff 0 ff ff
8 ff ff 1 fe 1 0
8 80 80 0 40 0 40
8 80 ff 80 7f 80 0
8 7f 7f 1 3f 1 3f
8 7f 80 80 3f 80 c0
8 2 80 0 1 0 ff
8 9e3779b97f4a7c15 d1b54a32d192ed03 3f 0 3f 0
16 0 ffff 0 0 0 0
16 1 ffff ffff 0 ffff ffff
16 ffff ffff 1 fffe 1 0
16 8000 8000 0 4000 0 4000
16 8000 ffff 8000 7fff 8000 0
16 7fff 7fff 1 3fff 1 3fff
16 7fff 8000 8000 3fff 8000 c000
16 2 8000 0 1 0 ffff
16 9e3779b97f4a7c15 d1b54a32d192ed03 e53f 72e0 e53f f6cb
32 0 ffffffff 0 0 0 0
32 1 ffffffff ffffffff 0 ffffffff ffffffff
32 ffffffff ffffffff 1 fffffffe 1 0
32 80000000 80000000 0 40000000 0 40000000
32 80000000 ffffffff 80000000 7fffffff 80000000 0
32 7fffffff 7fffffff 1 3fffffff 1 3fffffff
32 7fffffff 80000000 80000000 3fffffff 80000000 c0000000
32 2 80000000 0 1 0 ffffffff
32 9e3779b97f4a7c15 d1b54a32d192ed03 5bb8e53f 6834dda1 5bb8e53f e8ea618c
64 0 ffffffffffffffff 0 0 0 0
64 1 ffffffffffffffff ffffffffffffffff 0 ffffffffffffffff ffffffffffffffff
64 ffffffffffffffff ffffffffffffffff 1 fffffffffffffffe 1 0
64 8000000000000000 8000000000000000 0 4000000000000000 0 4000000000000000
64 8000000000000000 ffffffffffffffff 8000000000000000 7fffffffffffffff 8000000000000000 0
64 7fffffffffffffff 7fffffffffffffff 1 3fffffffffffffff 1 3fffffffffffffff
64 7fffffffffffffff 8000000000000000 8000000000000000 3fffffffffffffff 8000000000000000 c000000000000000
64 2 8000000000000000 0 1 0 ffffffffffffffff
64 9e3779b97f4a7c15 d1b54a32d192ed03 5750dde65bb8e53f 819b5574f29e4c7c 5750dde65bb8e53f 11ae9188a1c0e364
";

// Width, high half, low half and divisor, then quotient and remainder of div and of idiv; dashes are #DE.
pub const QUOTIENTS: &str = "\
8 0 7 0 - - - -
8 0 7 2 3 1 3 1
8 ff f9 2 - - fd ff
8 0 7 fe 0 7 fd 1
8 ff f9 fe - - 3 ff
8 ff 80 ff - - - -
8 ff 80 1 - - 80 0
8 0 80 ff 0 80 80 0
8 1 0 1 - - - -
8 1 0 2 80 0 - -
8 80 0 ff 80 80 - -
8 0 ff ff 1 0 - -
8 fe ff ff ff fe - -
8 40 0 80 80 0 80 0
8 13c6ef372fe94f82 d1b54a32d192ed03 d1b54a32d192ed03 - - - -
16 0 7 0 - - - -
16 0 7 2 3 1 3 1
16 ffff fff9 2 - - fffd ffff
16 0 7 fffe 0 7 fffd 1
16 ffff fff9 fffe - - 3 ffff
16 ffff 8000 ffff - - - -
16 ffff 8000 1 - - 8000 0
16 0 8000 ffff 0 8000 8000 0
16 1 0 1 - - - -
16 1 0 2 8000 0 - -
16 8000 0 ffff 8000 8000 - -
16 0 ffff ffff 1 0 - -
16 fffe ffff ffff ffff fffe - -
16 4000 0 8000 8000 0 8000 0
16 13c6ef372fe94f82 d1b54a32d192ed03 d1b54a32d192ed03 55e1 9e60 - -
32 0 7 0 - - - -
32 0 7 2 3 1 3 1
32 ffffffff fffffff9 2 - - fffffffd ffffffff
32 0 7 fffffffe 0 7 fffffffd 1
32 ffffffff fffffff9 fffffffe - - 3 ffffffff
32 ffffffff 80000000 ffffffff - - - -
32 ffffffff 80000000 1 - - 80000000 0
32 0 80000000 ffffffff 0 80000000 80000000 0
32 1 0 1 - - - -
32 1 0 2 80000000 0 - -
32 80000000 0 ffffffff 80000000 80000000 - -
32 0 ffffffff ffffffff 1 0 - -
32 fffffffe ffffffff ffffffff ffffffff fffffffe - -
32 40000000 0 80000000 80000000 0 80000000 0
32 13c6ef372fe94f82 d1b54a32d192ed03 d1b54a32d192ed03 3a866545 9fe4dc34 - -
64 0 7 0 - - - -
64 0 7 2 3 1 3 1
64 ffffffffffffffff fffffffffffffff9 2 - - fffffffffffffffd ffffffffffffffff
64 0 7 fffffffffffffffe 0 7 fffffffffffffffd 1
64 ffffffffffffffff fffffffffffffff9 fffffffffffffffe - - 3 ffffffffffffffff
64 ffffffffffffffff 8000000000000000 ffffffffffffffff - - - -
64 ffffffffffffffff 8000000000000000 1 - - 8000000000000000 0
64 0 8000000000000000 ffffffffffffffff 0 8000000000000000 8000000000000000 0
64 1 0 1 - - - -
64 1 0 2 8000000000000000 0 - -
64 8000000000000000 0 ffffffffffffffff 8000000000000000 8000000000000000 - -
64 0 ffffffffffffffff ffffffffffffffff 1 0 - -
64 fffffffffffffffe ffffffffffffffff ffffffffffffffff ffffffffffffffff fffffffffffffffe - -
64 4000000000000000 0 8000000000000000 8000000000000000 0 8000000000000000 0
64 13c6ef372fe94f82 d1b54a32d192ed03 d1b54a32d192ed03 18248c19728cbf80 1233733d75a32e83 92a14cf5e01c1f47 2aa55b665acbd42e
";

// Flags, then whether o, no, b, ae, e, ne, be, a, s, ns, l, ge, le, g hold.
pub const CONDITIONS: &str = "\
0 0 1 0 1 0 1 0 1 0 1 0 1 0 1
1 1 0 0 1 0 1 0 1 0 1 1 0 1 0
2 0 1 0 1 0 1 0 1 1 0 1 0 1 0
3 1 0 0 1 0 1 0 1 1 0 0 1 0 1
4 0 1 0 1 1 0 1 0 0 1 0 1 1 0
5 1 0 0 1 1 0 1 0 0 1 1 0 1 0
6 0 1 0 1 1 0 1 0 1 0 1 0 1 0
7 1 0 0 1 1 0 1 0 1 0 0 1 1 0
8 0 1 1 0 0 1 1 0 0 1 0 1 0 1
9 1 0 1 0 0 1 1 0 0 1 1 0 1 0
a 0 1 1 0 0 1 1 0 1 0 1 0 1 0
b 1 0 1 0 0 1 1 0 1 0 0 1 0 1
c 0 1 1 0 1 0 1 0 0 1 0 1 1 0
d 1 0 1 0 1 0 1 0 0 1 1 0 1 0
e 0 1 1 0 1 0 1 0 1 0 1 0 1 0
f 1 0 1 0 1 0 1 0 1 0 0 1 1 0
";
