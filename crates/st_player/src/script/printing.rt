//! What is printed: one sheet, of what is told at this entry.

/// Makes a sheet of the page before it is printed, and the page of the sheet behind that.
pub(crate) const PRINTING: &str =
    r###"// ---- printing: a sheet has one size, so that the picture is drawn for it, and of its lists what there is room for

let printing = false, before = {};
const MOST_ROWS = 24;                                    // more rows of a list never fit
function fitList(panel, rows, isFirstFarther) {          // the rows that there is room for stay; the farthest go
  const told = rows.length ? html(panel, "p", { className: "hint" }) : null;
  let gone = 0;
  while (rows.length > MOST_ROWS || rows.length && panel.scrollHeight > panel.clientHeight) {
    (isFirstFarther(rows) ? rows.shift() : rows.pop()).remove();
    told.textContent = `and ${++gone} more`;
  }
}
function beginSheet() {
  if (printing) return;
  printing = true;
  before = { theme: themeNow(), open: $("legend").open };
  document.documentElement.classList.add("sheet");
  theme("light");
  $("legend").open = true;
  drawAll();
  show();
  const farthest = rows => { const n = row => +row.dataset.n; return at - n(rows[0]) > n(rows[rows.length - 1]) - at; };
  fitList($("panel-now"), [...$("panel-now").querySelectorAll("li")], () => false);
  fitList($("panel-receipts"), [...$("panel-receipts").querySelectorAll("li")], farthest);
  fitList($("panel-promises"), [...$("panel-promises").querySelectorAll("tr:not(.kept):has(td)")], () => false);
}
function endSheet() {
  if (!printing) return;
  printing = false;
  document.documentElement.classList.remove("sheet");
  theme(before.theme);
  $("legend").open = before.open;
  listed = { group: null, items: [] };                   // what was left out is made again
  promised = { group: null, key: "" };
  drawAll();
  show();
}

"###;
