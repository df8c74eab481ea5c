//! The list of all entries, with what it leaves out.

/// Shows the list of all entries, as it is filtered.
pub(crate) const LISTING: &str = r###"// ---- the list of all entries, and what it leaves out

const KINDS = {
  proposals: entry => entry.kind === "submit", receipts: entry => entry.verdict !== null, accepted: entry => entry.verdict === "accepted", refused: entry => entry.verdict === "refused",
  withdrawn: entry => entry.kind === "withdraw" && entry.words[3] === "withdrawn", locks: entry => entry.kind === "lock" || entry.kind === "unlock", commands: entry => ["send", "withdraw", "deliver", "finish"].includes(entry.kind), reports: entry => entry.kind === "report" || entry.kind === "hear",
  failures: entry => entry.kind === "fail", "promises lost or back": entry => "network" in entry || "sure" in entry,
};
const ROW = 22, NOBODY = "\u0000";
const wanted = { group: null, app: "", kind: "", entity: "", list: [], short: new Map() };
const whoOf = entry => wanted.short.get(entry.app) || { check: "checker", send: "updater", withdraw: "updater", deliver: "network", finish: "network", report: "network", hear: "monitor", fail: "network" }[entry.kind];
function briefOf(n) {
  const entry = entryAt(n), w = entry.words, r = w.slice(w.indexOf(":") + 1), name = entry.on ? group.names[entry.on[0]] : "";
  switch (entry.kind) {
    case "submit": return `${r[0] === "queued" ? `ticket ${r[1]}` : "turned away"}: ${rowsText(w.slice(2, w.indexOf(":")))}`;
    case "check": return entry.verdict === null ? "nothing waits" : entry.verdict === "accepted" ? `\u2713 ticket ${r[1]}: version ${r[3]}` : `\u2717 ticket ${r[1]}: ${causeWords(r.slice(3)).slice(0, -1)}`;
    case "lock": return r[0] === "granted" ? `takes ${w[3]} lock of ${w[2]}` : `${w[3]} lock of ${w[2]}: ${r[1]} has it`;
    case "unlock": return r[0] === "released" ? `gives back ${w[3]} lock of ${w[2]}` : `${w[3]} lock of ${w[2]}: not its own`;
    case "send": return r[0] === "sent" ? `command ${r[1]} to ${name}` : r[0] === "settled" ? `${name} is settled` : `${name}: ${was(r[1])} is barred`;
    case "withdraw": return r[0] === "withdrawn" ? `\u21a9 version ${r[1]}: ${rowsText(r.slice(2))}` : `${name}: nothing is withdrawn`;
    case "deliver": return r[0] === "begun" ? `command ${w[1]}: ${name} begins` : r[0] === "stale" ? `command ${w[1]}: ${name} passes it over` : `no command ${w[1]}`;
    case "finish": return r[0] === "done" ? `${name} finishes` : `${name}: nothing to finish`;
    case "report": return `${name} sends report ${r[1]}`;
    case "hear": return r[0] === "taken" ? `report ${w[1]} of ${name}` : r[0] === "old" ? `report ${w[1]} of ${name}: old` : `no report ${w[1]}`;
    default: return sentenceOf(n).replace(". No report has told it yet.", "");
  }
}
function makeFilters(panel) {
  panel.replaceChildren();
  const box = html(panel, "div", { className: "filters" });
  const select = (key, label, options) => {
    const node = html(box, "select", { id: "want-" + key, onchange: () => { wanted[key] = node.value; filterEntries(); } });
    node.setAttribute("aria-label", label);
    for (const [value, text] of options) html(node, "option", { value }, text);
    node.value = wanted[key];
  };
  select("app", "Application", [["", "all applications"], ...group.apps.map(app => [app, app]), [NOBODY, "no application"]]);
  select("kind", "Kind of entry", [["", "all kinds"], ...Object.keys(KINDS).map(kind => [kind, kind])]);
  const find = html(box, "input", { type: "search", id: "want-entity", placeholder: "device or link, or a part of its name", value: wanted.entity, oninput: () => { wanted.entity = find.value.trim(); filterEntries(); } });
  find.setAttribute("list", "names");
  find.setAttribute("aria-label", "Device or link");
  const told = html(panel, "div", { className: "hint" });
  html(told, "span", { id: "counted" }).setAttribute("aria-live", "polite");
  button(told, "Clear", () => { Object.assign(wanted, { app: "", kind: "", entity: "" }); makeFilters(panel); filterEntries(); }).id = "want-all";
  const rows = html(panel, "div", { id: "rows", role: "listbox", tabIndex: 0, onscroll: () => { seenRows.top = rows.scrollTop; paintRows(); } });
  rows.setAttribute("aria-label", "Entries");
  rows.onclick = event => { const row = event.target.closest("[role=option]"); if (row) { pause(); go(+row.dataset.n); } };
  rows.style.setProperty("--number", `${String(group.last).length}ch`);
  html(rows, "div", { id: "height", role: "presentation" });
  Object.assign(seenRows, { list: null, top: 0, height: 0, nodes: new Map(), here: null });
}
function filterEntries() {
  const { app, kind, entity } = wanted, whole = group.names.indexOf(entity);
  const named = entity ? new Set((whole >= 0 ? [whole] : group.names.flatMap((name, e) => name.includes(entity) ? [e] : [])).flatMap(e => group.touched[e])) : null;
  wanted.list = [];
  group.entries.forEach((entry, i) => {
    const n = group.first + i + 1;
    if ((!app || (app === NOBODY ? entry.app === null : entry.app === app)) && (!kind || KINDS[kind](entry)) && (!named || named.has(n))) wanted.list.push(n);
  });
  $("counted").textContent = wanted.list.length === group.entries.length ? `${many(group.entries.length, "entry")}` : `${wanted.list.length} of ${many(group.entries.length, "entry")}`;
  $("want-all").hidden = !(app || kind || entity);
  $("height").style.height = wanted.list.length * ROW + "px";
  showRow();
}
function placeIn(list, n) {                              // how many of an ascending list are not after n
  let low = 0, high = list.length;
  while (low < high) { const mid = (low + high) >> 1; if (list[mid] <= n) low = mid + 1; else high = mid; }
  return low;
}
// Of the rows those that are seen are made, once for each part of the list; at a step the two that differ are touched.
const seenRows = { list: null, begin: -1, end: -1, top: 0, height: 0, nodes: new Map(), here: null };
function showRow() {                                     // the row of this entry, or of the last one before it, is brought into view
  const rows = $("rows"), top = Math.max(0, placeIn(wanted.list, at) - 1) * ROW;
  if (!seenRows.height) seenRows.height = rows.clientHeight;
  if (top < seenRows.top) rows.scrollTop = seenRows.top = top;
  else if (top + ROW > seenRows.top + seenRows.height) rows.scrollTop = seenRows.top = top + ROW - seenRows.height;
  paintRows();
}
function paintRows() {
  const { list } = wanted, rows = $("rows"), begin = Math.max(0, Math.floor(seenRows.top / ROW) - 8), end = Math.min(list.length, begin + Math.ceil(seenRows.height / ROW) + 16);
  if (seenRows.list !== list) { for (const node of seenRows.nodes.values()) node.remove(); Object.assign(seenRows, { list, nodes: new Map(), begin: 0, end: 0 }); }
  for (let k = seenRows.begin; k < seenRows.end; k++) if (k < begin || k >= end) { seenRows.nodes.get(list[k]).remove(); seenRows.nodes.delete(list[k]); }
  for (let k = begin; k < end; k++) if (!seenRows.nodes.has(list[k])) seenRows.nodes.set(list[k], makeRow(rows, k));
  Object.assign(seenRows, { begin, end });
  const here = seenRows.nodes.get(at) || null;
  if (seenRows.here && seenRows.here !== here) seenRows.here.setAttribute("aria-selected", false);
  if (here && seenRows.here !== here) { here.setAttribute("aria-selected", true); rows.setAttribute("aria-activedescendant", here.id); }
  if (!here && seenRows.here) rows.removeAttribute("aria-activedescendant");
  seenRows.here = here;
}
function makeRow(rows, k) {
  const n = wanted.list[k], entry = entryAt(n), row = html(rows, "div", { id: "row-" + n, title: `${n} ${entry.line}`, className: "network" in entry || "sure" in entry ? "turn" : "" });
  row.style.top = k * ROW + "px";
  row.dataset.n = n;
  for (const [key, value] of [["role", "option"], ["aria-selected", false], ["aria-posinset", k + 1], ["aria-setsize", wanted.list.length]]) row.setAttribute(key, value);
  html(row, "span", {}, n);
  html(row, entry.app ? "b" : "i", {}, whoOf(entry));
  html(row, "span", { className: entry.verdict || (entry.kind === "fail" ? "fail" : "") }, briefOf(n));
  return row;
}
function showEntries() {
  if (wanted.group !== group) {
    const short = shortNames(group.apps, text => widthOf(text, 13.5) <= 80);   // they are bold
    Object.assign(wanted, { group, app: "", kind: "", entity: "", short: new Map(group.apps.map((app, i) => [app, short[i]])) });
    makeFilters($("panel-entries"));
    filterEntries();
  } else showRow();
}
function stepInList(by) {                                // in the list as it is filtered, where that is what is shown
  const { list } = wanted, k = placeIn(list, at);
  if (tab !== "entries" || wanted.group !== group) return go(at + by);
  const n = by > 0 ? list[k] : list[k - (list[k - 1] === at ? 2 : 1)];
  if (n !== undefined) go(n);
}

"###;
