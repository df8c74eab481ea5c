//! Journals, printed: one with each event and each reply, and two that are legal, with replies that are not.

/// A journal with each event, each reply, each verdict and each cause, and one of another group.
pub const ALL: &str = "\
journal dc1
1 submit up a1.firmware=2 l1.iface=0 : queued 1
2 submit te t1.power=0 : full 64
3 check : receipt 1 accepted 1
4 check : receipt 2 refused level a1.firmware=2 of t1 has 1 needs 2
5 check : receipt 3 refused off a1.config=4294967295
6 check : receipt 4 refused locked l1 te high
7 check : receipt 5 refused broken t1 t2 cutoff need 10 has 0 side t1
8 check : receipt 6 refused broken t1 t2 short need 4294967295 has 5 side t1 a1 a2
9 check : idle
10 lock up a1 low : granted
11 lock up l1 high : held te
12 unlock up a1 low : released
13 unlock te a1 low : notyours up
14 unlock te a1 low : notyours -
15 send a1 : sent 1
16 send a2 : settled
17 send a2 : blocked a1.routing=0
18 deliver 1 : begun
19 deliver 1 : stale 3
20 deliver 9 : nosuch 1
21 finish a1 : done
22 finish a1 : notbusy
23 report a1 : reported 1
24 hear 1 : taken
25 hear 1 : old 1
26 hear 9 : nosuch 1
27 fail a2 0 power=1 firmware=1 config=1 routing=0 : changed
28 fail l4 1 power=0 iface=7 : changed
29 withdraw a1 : withdrawn 2 a1.firmware=1 a1.routing=0
30 withdraw l1 : withdrawn 4294967295 l1.power=1
31 withdraw a1 : kept
journal dc2
journal dc3
1 check : idle
";

/// A proposal on 16 variables, in a journal.
pub const SIXTEEN: &str = "\
journal dc1
1 submit up t1.power=1 t1.firmware=1 t1.config=1 t1.routing=1 t2.power=1 t2.firmware=1 t2.config=1 t2.routing=1 \
a1.power=1 a1.firmware=1 a1.config=1 a1.routing=1 a2.power=1 a2.firmware=1 a2.config=1 a2.routing=1 ";

/// What may stand behind it.
pub const BEHIND_SIXTEEN: &str = "\
journals:: queued 1
2 Limit:l1.power=1 : queued 1
2 Number:l1.power=1 : queued x
2 Twice:l1.power=1 a1.power=0 : queued x";

/// Two proposals, of which the second would cut off t1.
pub const SECOND_BROKEN: &str = "\
journal dc1
1 submit up a1.firmware=2 : queued 1
2 submit up a2.firmware=2 : queued 2
3 check : receipt 1 accepted 1
4 check : receipt 2 refused broken t1 t2 cutoff need 10 has 0 side t1
journal dc2
journal dc3
";

/// The same journal with comments, blank lines, tabs, and no line for journals without entries.
pub const OTHER_SPELLING: &str = "\
# a run
journal\tdc1

1  submit up\ta1.firmware=2 : queued 1
 2 submit up a2.firmware=2 : queued 2
# a line that is skipped
3 check : receipt 1 accepted 1
4 check : receipt 2 refused broken t1 t2 cutoff need 10 has 0 side t1 ";

/// Lines in place of its own, each with a reply that is not the one that is called for.
pub const ALTERED: &str = "\
1 submit up a1.firmware=2 : queued 2
1 submit up a1.firmware=2 : full 64
2 submit up a2.firmware=2 : queued 1
2 submit up a2.firmware=2 : full 64
3 check : idle
3 check : receipt 2 accepted 1
3 check : receipt 1 accepted 2
3 check : receipt 1 refused broken t1 t2 cutoff need 10 has 0 side t1
3 check : receipt 1 refused locked a1 up low
3 check : receipt 1 refused off a1.firmware=2
4 check : receipt 2 accepted 2
4 check : receipt 2 refused broken t1 t2 short need 10 has 0 side t1
4 check : receipt 2 refused broken t1 t2 cutoff need 11 has 0 side t1
4 check : receipt 2 refused broken t1 t2 cutoff need 10 has 1 side t1
4 check : receipt 2 refused broken t1 t2 cutoff need 10 has 0 side t1 a1
4 check : receipt 2 refused locked a2 te high";

/// A failure that no report has told, and a proposal that is accepted and carried out.
pub const UNTOLD_FAILURE: &str = "\
journal dc1
1 fail a2 0 power=1 firmware=1 config=1 routing=1 : changed
2 submit up a1.routing=0 : queued 1
3 check : receipt 1 accepted 1
4 send a1 : sent 1
5 deliver 1 : begun
6 finish a1 : done
7 report a1 : reported 1
8 hear 1 : taken
";

/// Lines in place of its own, each with a reply that is not the one that is called for.
pub const ALTERED_REPORTS: &str = "\
4 send a1 : settled
4 send a1 : sent 2
5 deliver 1 : stale 1
6 finish a1 : notbusy
7 report a1 : reported 2
8 hear 1 : old 1";

/// A command that comes again behind a later one.
pub const STALE_COMMAND: &str = "\
journal dc1
1 submit up a1.firmware=2 : queued 1
2 check : receipt 1 accepted 1
3 send a1 : sent 1
4 deliver 1 : begun
5 finish a1 : done
6 report a1 : reported 1
7 hear 1 : taken
8 submit up a1.firmware=3 : queued 2
9 check : receipt 2 accepted 2
10 send a1 : sent 2
11 deliver 2 : begun
12 deliver 1 : stale 9
13 finish a1 : done
14 report a1 : reported 2
15 hear 2 : taken
";

/// A report that comes again.
pub const OLD_REPORT: &str = "\
journal dc1
1 submit up a1.firmware=2 : queued 1
2 check : receipt 1 accepted 1
3 send a1 : sent 1
4 deliver 1 : begun
5 finish a1 : done
6 report a1 : reported 1
7 hear 1 : taken
8 hear 1 : old 1
";

/// A switch that lost its firmware of itself, and is set back.
pub const RENEWED: &str = "\
journal dc1
1 fail a1 5 power=1 firmware=9 config=1 routing=1 : changed
2 report a1 : reported 1
3 hear 1 : taken
4 send a1 : sent 1
5 deliver 1 : begun
6 finish a1 : done
7 report a1 : reported 2
8 hear 2 : taken
";
