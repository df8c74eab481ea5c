//! Texts with the first bad line of each and its kind, by hand from the grammar: a row has the line, the kind and, behind
//! `:`, the text, with `;` in place of LF.

/// Two ToRs that two switches join, in 11 lines.
pub const PLAIN: &str = "\
statesman 1
group dc1
device t1 tor
device t2 tor
device a1 switch
device a2 switch
link l1 t1 a1 10
link l2 t1 a2 10
link l3 t2 a1 10
link l4 t2 a2 10
promise t1 t2 50
";

/// Whole documents. No keyword stands before the header, and the lines of a group's section need a group.
pub const OPENINGS: &str = "\
1 Header:
4 Header: ;\t ;# nothing;
3 Header: # nothing;;statesman 2;
1 Header: statesman
1 Header: statesman 1 1
1 Header: statesman 0
1 Header: statesman 01
1 Header: statesman +1
1 Header: statesman one
1 Byte: statesman\x7f1
1 Byte: #\x1f
1 Header: group dc1
1 Header: device a3 switch
1 Header: link l5 t1 a1 10
1 Header: promise t1 t2 50
1 Header: open a1.power=0
1 Header: health a1 4
1 Header: drop dc1 command 1
1 Header: repeat dc1 command 1 1
1 Header: hold dc1 command 1 2
1 Header: app up
1 Header: propose dc1 a1.power=0
1 Header: await dc1
1 Header: settle dc1 1
1 Header: lock dc1 a1 low
1 Header: unlock dc1 a1 low
1 Header: read dc1 a1.power
1 Header: readat dc1 0 a1.power
1 Header: fail dc1 a1 0
1 Header: poll dc1 a1
1 Header: order up
1 Header: no keyword
1 Header: journal dc1
2 Word: statesman 1;device a3 switch
2 Word: statesman 1;link l5 t1 a1 10
2 Word: statesman 1;promise t1 t2 50
2 Word: statesman 1;open a1.power=0
2 Word: statesman 1;health a1 4
2 Word: statesman 1;statesman 1
2 Word: statesman 1;journal dc1
";

/// Texts behind `PLAIN`: for each keyword every kind that its lines can have there.
pub const FAULTS: &str = "\
12 Byte: group dc2\x7f
13 Word: drop dc1 report 1;group dc2
12 Count: group
12 Count: group dc2 dc3
12 Name: group 2dc
12 Twice: group dc1
12 Byte: device a3 switch\x7f
13 Word: drop dc1 report 1;device a3 switch
12 Count: device a3
12 Name: device a.3 spine
12 Twice: device a1 spine
12 Twice: device l1 switch
12 Value: device a3 spine
12 Byte: link l5 t1 a1 10\x7f
13 Word: app up;link l5 t1 a1 10
12 Count: link l5 t1 a1
12 Name: link 5 t1 a1 10
12 Name: link l5 t1 /a1 10
12 Name: link l5 dc2/t+1 a1 10
12 Twice: link l1 t9 a1 10
12 Unknown: link l5 t1 l2 10
12 Unknown: link l5 dc1/a9 a1 10
12 Cross: link l5 t1 dc2/a9 10
12 Number: link l5 a1 a1 0
12 Number: link l5 t1 a1 1000001
12 Number: link l5 t1 a1 010
12 Loop: link l5 a1 dc1/a1 10
12 Byte: promise t1 t2 50\x7f
13 Word: drop dc1 report 1;promise t1 t2 50
12 Count: promise t1 t2
12 Name: promise t1 -t2 50
12 Unknown: promise t1 l1 50
12 Number: promise t1 t2 101
12 Pair: promise t1 a1 50
12 Pair: promise t2 t2 50
12 Pair: promise t2 t1 0
12 Byte: open a1.power=0\x7f
13 Word: drop dc1 report 1;open a1.power=0
12 Count: open
12 Count: open a1.power=0 a2.power=0
12 Name: open a1=0
12 Name: open .power=0
12 Unknown: open a9.power=x
12 Value: open a1
12 Value: open a1.iface=x
12 Value: open a1.power
12 Value: open l1.power=2
12 Number: open a1.power=
12 Number: open a1.firmware=4294967296
13 Value: open a1.power=0;open a1.power=2
13 Twice: open a1.power=0;open a1.power=0
12 Byte: health a1 4\x7f
13 Word: drop dc1 report 1;health a1 4
12 Count: health a1
12 Name: health 1a 4
12 Unknown: health dc1 4
12 Number: health a1 6
12 Number: health l1 2
13 Twice: health l1 1;health l1 2
12 Byte: drop dc1 command 1\x7f
13 Word: app up;drop dc1 command 1
12 Count: drop dc1 command
12 Name: drop dc/1 command 1
12 Unknown: drop dc2 command 1
12 Value: drop dc1 commands 0
12 Number: drop dc1 command 0
12 Byte: repeat dc1 report 2 2\x7f
13 Word: app up;repeat dc1 report 2 2
12 Count: repeat dc1 report 2
12 Name: repeat _dc report 2 2
12 Unknown: repeat dc2 report 2 2
12 Value: repeat dc1 reply 2 2
12 Number: repeat dc1 report 0 2
12 Number: repeat dc1 report 2 1
12 Byte: hold dc1 command 2 3\x7f
13 Word: app up;hold dc1 command 2 3
12 Count: hold dc1 command 2 3 4
12 Name: hold dc1. command 2 3
12 Unknown: hold t1 command 2 3
12 Value: hold dc1 Command 2 3
12 Number: hold dc1 command 0 3
12 Number: hold dc1 command 2 2
12 Byte: app up\x7f
14 Word: app up;order up;app two
12 Count: app
12 Name: app abcdefghijklmnopqrstuvwxyz0123456
13 Twice: app up;app up
12 Byte: propose dc1 a1.power=0\x7f
12 Word: propose dc1 a1.power=0
14 Word: app up;order up;propose dc1 a1.power=0
13 Count: app up;propose dc1
13 Name: app up;propose dc+ a1.power=0
13 Name: app up;propose dc1 a1=0
13 Unknown: app up;propose dc2 a1.power=0
13 Unknown: app up;propose dc1 a1.power=0 a9.power=0
13 Value: app up;propose dc1 a1.power=0 a1
13 Value: app up;propose dc1 l1.routing=0
13 Value: app up;propose dc1 a1.routing=2
13 Number: app up;propose dc1 a1.config=01
13 Twice: app up;propose dc1 a1.config=1 a2.config=1 a1.config=2
13 Twice: app up;propose dc1 t1.power=1 t1.firmware=1 t1.config=1 t1.routing=1 t2.power=1 t2.firmware=1 t2.config=1 t2.routing=1 a1.power=1 a1.firmware=1 a1.config=1 a1.routing=1 a2.power=1 a2.firmware=1 a2.config=1 a2.routing=1 t1.power=1
13 Limit: app up;propose dc1 t1.power=1 t1.firmware=1 t1.config=1 t1.routing=1 t2.power=1 t2.firmware=1 t2.config=1 t2.routing=1 a1.power=1 a1.firmware=1 a1.config=1 a1.routing=1 a2.power=1 a2.firmware=1 a2.config=1 a2.routing=1 l1.power=1
12 Byte: await dc1\x7f
12 Word: await dc1
13 Count: app up;await dc1 dc1
13 Name: app up;await 1
13 Unknown: app up;await up
12 Byte: settle dc1 1\x7f
12 Word: settle dc1 1
13 Count: app up;settle dc1
13 Name: app up;settle - 0
13 Unknown: app up;settle dc2 0
13 Number: app up;settle dc1 0
13 Number: app up;settle dc1 65
12 Byte: lock dc1 a1 low\x7f
12 Word: lock dc1 a1 low
13 Count: app up;lock dc1 a1
13 Name: app up;lock dc1 a1. low
13 Unknown: app up;lock up 1a low
13 Unknown: app up;lock dc1 a9 mid
13 Value: app up;lock dc1 a1 mid
12 Byte: unlock dc1 a1 low\x7f
12 Word: unlock dc1 a1 low
13 Count: app up;unlock dc1 a1 low high
13 Name: app up;unlock .dc1 a1 low
13 Unknown: app up;unlock dc1 t3 low
13 Value: app up;unlock dc1 l1 Low
12 Byte: read dc1 a1.power\x7f
12 Word: read dc1 a1.power
13 Count: app up;read dc1
13 Name: app up;read dc1 a1/power
13 Unknown: app up;read dc1 a9.power
13 Value: app up;read dc1 a1
13 Value: app up;read dc1 a1.config=1
12 Byte: readat dc1 0 a1.power\x7f
12 Word: readat dc1 0 a1.power
13 Count: app up;readat dc1 a1.power
13 Name: app up;readat dc1 0 1.power
13 Unknown: app up;readat dc1 0 a9.power
13 Number: app up;readat dc1 -1 a9.power
13 Value: app up;readat dc1 0 l1.config
12 Byte: fail dc1 a1 0\x7f
12 Word: fail dc1 a1 0
13 Count: app up;fail dc1 a1
13 Name: app up;fail dc1 a+ 0
13 Unknown: app up;fail dc1 a9 6
13 Number: app up;fail dc1 a1 6
13 Number: app up;fail dc1 l1 2 power
13 Number: app up;fail dc1 l1 1 iface=x
13 Value: app up;fail dc1 a1 0 iface=1
13 Value: app up;fail dc1 a1 0 config
13 Value: app up;fail dc1 a1 0 a1.config=1
13 Value: app up;fail dc1 l1 0 power=2
13 Twice: app up;fail dc1 a1 0 config=1 power=0 config=2
12 Byte: poll dc1 a1\x7f
12 Word: poll dc1 a1
13 Count: app up;poll dc1
13 Name: app up;poll 1dc a1
13 Unknown: app up;poll dc1 a9
12 Byte: order up\x7f
12 Count: order
13 Name: app up;order up *
13 Unknown: app up;order up dc1
12 Word: devices a3 switch
12 Word: Group dc2
";
