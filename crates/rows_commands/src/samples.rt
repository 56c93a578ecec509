//! Files and scripts.

/// The script of the one-rule page.
pub const ONE_RULE: &str = "hbox into 0\nrule 1pt 1pt 0pt\nend\nship 0\n";

/// The answers to it.
pub const ONE_RULE_ANSWERS: &str =
    "1: ok\n2: ok\n3: packed 1.0pt 1.0pt 0.0pt badness 0\n4: shipped 1\nend: pages 1 bytes 116\n";

/// The answers without the last line.
pub const ONE_RULE_REPLIES: &str =
    "1: ok\n2: ok\n3: packed 1.0pt 1.0pt 0.0pt badness 0\n4: shipped 1\n";

/// The same page with bad lines, an empty one and a comment.
pub const BAD_LINES: &str =
    "hbox into 0\nkern 12px\n\n% end x\nrule 1pt 1pt 0pt\nend x\nend\nship 0";

/// The answers of a session to it.
pub const BAD_LINES_ANSWERS: &str = "\
1: ok
refused 2 BadScript 2 Dimension
5: ok
refused 2 BadScript 6 Extra
7: packed 1.0pt 1.0pt 0.0pt badness 0
8: shipped 1
end: pages 1 bytes 116
";

/// The answers if its file takes nothing: the job is over after the refused page.
pub const UNWRITTEN_ANSWERS: &str =
    "1: ok\n2: ok\n3: packed 1.0pt 1.0pt 0.0pt badness 0\n4: refused 18 Device\nend: refused 19 JobOver\n";

/// The bytes of its file, sixteen bytes a line.
pub const ONE_RULE_BYTES: &str = "\
f702018392c01c3b0000000003e8008b
00000000000000000000000000000000
00000000000000000000000000000000
0000000000000000ffffffff9f010000
8400010000000100008cf80000000f01
8392c01c3b0000000003e80001000000
01000000000001f90000004a02dfdfdf
dfdfdfdf
";

/// The bytes of its file before its postamble.
pub const ONE_RULE_PAGES: &str = "\
f702018392c01c3b0000000003e8008b
00000000000000000000000000000000
00000000000000000000000000000000
0000000000000000ffffffff9f010000
8400010000000100008c
";

/// A script whose box is not shipped, with refusals.
pub const REFUSED_JOB: &str =
    "vbox into 3\nrule 10pt 5pt 0pt\nend\nhbox into 4\nunhbox 3\nbox 3\nbox 3\nkern 16383.99999pt\nend\nkern -10pt\nend\nship 3\nmeasure 4\n";

/// The answers to it.
pub const REFUSED_JOB_ANSWERS: &str = "\
1: ok
2: ok
3: packed 10.0pt 5.0pt 0.0pt badness 0
4: ok
5: refused 9 WrongKind
6: added 1
7: added 0
8: ok
9: refused 3 DimensionTooLarge
10: ok
11: packed 16383.99998pt 5.0pt 0.0pt badness 0
12: refused 21 VoidBox
13: measured hbox 16383.99998pt 5.0pt 0.0pt
end: pages 0 bytes 0
";
