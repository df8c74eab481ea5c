//! Texts that are read with journals, by hand from the grammar: a row has what is told and, behind `:`, the text, with `;` in
//! place of LF. Told is the byte and the line where the journals begin, `none` where there are none, or the line and the kind
//! of the first bad line.

pub const JOURNALS: &str = "\
none:statesman 1
none:statesman 1;group dc1;device journal tor;
12 2:statesman 1;journal
12 2:statesman 1;journal dc1;1 poll t1 : sent;journal dc2;
12 2:statesman 1; \t journal dc1;
22 3:statesman 1;group dc1;journal dc1;group\x7f;
23 3:statesman 1\r;#journal\r;journal\r;
2 Word:statesman 1;journals dc1
2 Word:statesman 1;Journal dc1
2 Word:statesman 1;device t1 tor;journal dc1
1 Header:
1 Header:journal dc1;statesman 1
3 Header:;# nothing;journal dc1
";
