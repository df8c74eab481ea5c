//! Texts with the first bad line of each and its kind, by hand from the grammar: a row has the line, the kind and, behind
//! `:`, the text, with `;` in place of LF.

/// Lines of journals, and entries that stand in the wrong place.
pub const LINES: &str = "\
1 Byte:journal\x7fdc1
1 Byte:#\x1f
2 Byte:journal dc1;1 check : idle\x01
1 Word:1 check : idle
1 Word:journals dc1
1 Word:check : idle
1 Word::
2 Word:# nothing;statesman 1
2 Word:journal dc1;group dc1
3 Word:journal dc1;;device a1 switch
1 Count:journal
1 Count:journal dc1 dc2
1 Name:journal 1dc
1 Unknown:journal dc9
1 Unknown:journal up
2 Twice:journal dc1;journal dc1
2 Twice:journal dc2;journal dc1
3 Twice:journal dc1;journal dc3;journal dc2
3 Number:journal dc1;1 check : idle;3 check : idle
4 Number:journal dc1;1 check : idle;journal dc2;2 check : idle
3 Unknown:journal dc1;journal dc2;1 send a1 : settled
1 Word:1";

/// Entries behind `journal dc1`.
pub const ENTRIES: &str = "\
2 Count:1
2 Count:1 check idle
2 Count:1 : idle
2 Count:1 check :
2 Count:1: check idle
2 Count:1 check x : idle
2 Count:1 submit up : queued 1
2 Count:1 lock up a1 : granted
2 Count:1 unlock up a1 low high : released
2 Count:1 send : settled
2 Count:1 deliver 1 2 : begun
2 Count:1 fail a2 0 : changed
2 Count:1 check : idle 1
2 Count:1 check : idle : idle
2 Count:1 submit up a1.power=1 : queued
2 Count:1 lock up a1 low : held
2 Count:1 send a1 : blocked
2 Count:1 check : receipt 1 accepted
2 Count:1 check : receipt 1 accepted 1 2
2 Count:1 check : receipt 1 refused
2 Count:1 check : receipt 1 refused off
2 Count:1 check : receipt 1 refused level a1.power=1 of a1 has 1 needs
2 Count:1 check : receipt 1 refused locked a1 up
2 Count:1 check : receipt 1 refused broken t1 t2 cutoff need 10 has 0 side
2 Count:1 withdraw : kept
2 Count:1 withdraw a1 : kept 1
2 Count:1 withdraw a1 : withdrawn 1
2 Count:1 foo : granted x
2 Count:1 check : granted x
2 Count:2 check : idle 1
2 Number:2 check : idle
2 Number:0 check : idle
2 Number:01 check : idle
2 Number:1x check : idle
2 Number:9999999999 check : idle
2 Number:2 foo : bar
2 Value:1 foo : idle
2 Value:1 foo x y z : bar
2 Value:1 check : foo
2 Value:1 check : changed
2 Value:1 hear 1 : begun
2 Value:1 deliver 1 : taken
2 Value:1 lock up a1 low : released
2 Value:1 withdraw a1 : settled
2 Value:1 send a1 : kept
2 Value:1 Check : idle
2 Unknown:1 submit xy a1.power=1 : queued 1
2 Name:1 submit 1y a1.power=1 : queued 1
2 Name:1 submit up a1=3 : queued 1
2 Unknown:1 submit up a9 : queued 1
2 Value:1 submit up t1 : queued 1
2 Value:1 submit up a1.power : queued 1
2 Value:1 submit up a1.iface=1 : queued 1
2 Number:1 submit up a1.power=x : queued 1
2 Value:1 submit up a1.power=2 : queued 1
2 Twice:1 submit up a1.power=1 a1.power=0 : queued 1
2 Number:1 submit up a1.power=1 : queued 4294967296
2 Unknown:1 lock xy a1 low : granted
2 Unknown:1 lock up b1 low : granted
2 Value:1 lock up a1 middle : granted
2 Unknown:1 lock up a1 low : held xy
2 Name:1 unlock up a1 low : notyours --
2 Number:1 deliver x : begun
2 Number:1 hear 1 : old x
2 Unknown:1 send b1 : settled
2 Value:1 send a1 : blocked a1.power
2 Number:1 fail a2 6 power=1 firmware=1 config=1 routing=1 : changed
2 Number:1 fail l1 2 power=1 iface=1 : changed
2 Value:1 fail a2 5 firmware=1 power=1 config=1 routing=1 : changed
2 Value:1 fail a2 5 power=1 firmware=1 config=1 : changed
2 Value:1 fail a2 5 power=1 firmware=1 config=1 routing=1 routing=1 : changed
2 Value:1 fail a2 5 power=1 power=1 firmware=1 config=1 routing=1 : changed
2 Value:1 fail a2 5 power firmware=1 config=1 routing=1 : changed
2 Value:1 fail a2 5 power=2 firmware=1 config=1 routing=1 : changed
2 Value:1 fail a2 5 firmware=x power=1 config=1 routing=1 : changed
2 Number:1 fail a2 5 power=1 firmware=2=3 config=1 routing=1 : changed
2 Value:1 fail l1 1 power=1 firmware=1 : changed
2 Unknown:1 withdraw b1 : kept
2 Number:1 withdraw a1 : withdrawn x a2.firmware=1
2 Unknown:1 withdraw a1 : withdrawn 2 b1.firmware=1
2 Number:1 withdraw a1 : withdrawn 2 a2.firmware=x
2 Value:1 withdraw a1 : withdrawn 2 a2.firmware=1
2 Value:1 withdraw a1 : withdrawn 2 a1.firmware=1 a1.power=1
2 Value:1 withdraw a1 : withdrawn 2 a1.firmware=1 a1.firmware=2
2 Value:1 withdraw a1 : withdrawn 2 a1.power=1 a1.firmware=1 a1.config=1 a1.routing=1 a1.power=1
2 Number:1 check : receipt x accepted 1
2 Number:1 check : receipt x maybe 1
2 Value:1 check : receipt 1 maybe 1
2 Number:1 check : receipt 1 accepted x
2 Number:1 check : receipt x refused since 1
2 Value:1 check : receipt 1 refused since 1
2 Unknown:1 check : receipt 1 refused off b1.power=1
2 Value:1 check : receipt 1 refused level a1.power=1 at a1 has 1 needs 2
2 Unknown:1 check : receipt 1 refused level a1.power=1 of b1 has 1 needs 2
2 Value:1 check : receipt 1 refused level a1.power=1 of a1 had 1 needs 2
2 Number:1 check : receipt 1 refused level a1.power=1 of a1 has x needs 2
2 Value:1 check : receipt 1 refused level a1.power=1 of a1 has 1 need 2
2 Value:1 check : receipt 1 refused locked a1 up middle
2 Unknown:1 check : receipt 1 refused broken b1 t2 cutoff need 10 has 0 side t1
2 Unknown:1 check : receipt 1 refused broken t1 l1 cutoff need 10 has 0 side t1
2 Value:1 check : receipt 1 refused broken t1 t2 cut need 10 has 0 side t1
2 Value:1 check : receipt 1 refused broken t1 t2 cutoff needs 10 has 0 side t1
2 Number:1 check : receipt 1 refused broken t1 t2 cutoff need 4294967296 has 0 side t1
2 Value:1 check : receipt 1 refused broken t1 t2 cutoff need 10 has 0 sides t1
2 Unknown:1 check : receipt 1 refused broken t1 t2 cutoff need 10 has 0 side l1
2 Twice:1 check : receipt 1 refused broken t1 t2 cutoff need 10 has 0 side a1 t1
2 Twice:1 check : receipt 1 refused broken t1 t2 cutoff need 10 has 0 side t1 t1
2 Twice:1 check : receipt 1 refused broken t2 t1 cutoff need 10 has 0 side t1 t1
2 Pair:1 check : receipt 1 refused broken t2 t1 cutoff need 10 has 0 side t1
2 Pair:1 check : receipt 1 refused broken a1 a2 short need 10 has 0 side t1";
