//! What stands beside the picture: the sentence with its reasons, and the lists.

/// Shows the sentence with its reasons, and the lists but that of all entries.
pub(crate) const LISTS: &str = r###"// ---- the lists

function button(parent, text, onclick, className = "") { return html(parent, "button", { onclick, className, type: "button" }, text); }
function refer(parent, text, n) {                        // a word that leads to an entry
  if (n === null) return parent.append(text);
  html(parent, "a", { href: `#${group.name}/${n}`, title: `Go to entry ${n}`, onclick: event => { event.preventDefault(); pause(); go(n); } }, text);
}
function tellWhys(parent, list, n) {
  list.slice(0, 6).forEach((e, i) => {
    if (i) parent.append(", ");
    html(parent, "b", {}, group.names[e]);
    parent.append(" (");
    whyNot(e, n).forEach(([text, entry], k) => { if (k) parent.append("; "); refer(parent, text, entry); });
    parent.append(")");
  });
  parent.append(list.length > 6 ? ` and ${list.length - 6} more.` : ".");
}
function tellCut(more, refused) {
  const bar = html(more, "div", { className: "bar" });
  html(bar, "i", { style: `width:${Math.min(100, 100 * refused.has / Math.max(1, refused.need))}%` });
  html(bar, "b", {}, `need ${refused.need}, left ${refused.has}${refused.need === 0 ? ": a way has to stay" : ""}`);
  if (refused.gone.length) tellWhys(html(more, "p", { className: "hint", id: "why" }, "Not counted on before: "), refused.gone, at);
  const names = list => few(list.map(e => group.names[e])), part = partOf(refused);
  html(more, "p", { className: "hint" }, `Shaded: ${names(part)}${refused.part === "far" ? ` (the least side is the other part, ${many(refused.side.length, "device")})` : ", the least side"}. `
    + `Of the ${many(refused.left.length + refused.out.length, "link")} that leave it ${refused.left.length || "none"} would count${refused.out.length ? "; in dashes: those that would not" : ""}.`
    + (refused.changes.length ? ` Would change: ${names(refused.changes)}.` : ""));
}
function tellBar(more, refused) {                        // what else is known of the one that bars a proposal
  const e = refused.of, state = valueAt(group.entities[e], at), p = html(more, "p", { className: "hint", id: "why" });
  if (refused.kind === "locked") {
    const n = group.touched[e].findLast(k => k <= at && entryAt(k).kind === "lock" && entryAt(k).app === run.apps[refused.by] && entryAt(k).words[3] === refused.prio);
    p.append("The lock was taken ");
    refer(p, n ? `at entry ${n}` : "before this page", n || null);
    p.append(".");
  } else if (state.known !== "sure") tellWhys(p, [e], at);
}
function tellSince(parent, e, s) {                       // by which entry its known report was made, and the health that this tells
  parent.append("Known since ");
  refer(parent, s.told ? `entry ${s.told}` : "the opening", s.told > group.first ? s.told : null);
  parent.append(s.health === null ? ", by a report that hides its health." : `: health ${s.health} of ${whole(e)}.`);
}
function showSaid(entry) {
  $("head").textContent = at === group.first ? `Before entry ${at + 1}` : `Entry ${at} of ${group.total}`;
  $("sentence").textContent = sentenceOf(at);
  $("sentence").className = entry && entry.refused ? "refused" : "";
  $("line").textContent = entry ? `${at} ${entry.line}` : "";
  const more = $("more"), refused = entry && entry.refused;
  more.replaceChildren();
  if (refused && "promise" in refused) tellCut(more, refused);
  else if (refused && "of" in refused) tellBar(more, refused);
  for (const [set, where] of [["network", "in the network"], ["sure", "in what the checker counts on"]]) {
    const { lost = [], back = [] } = entry && entry[set] || {};
    if (lost.length) html(more, "p", { className: "tell-lost" }, `${many(lost.length, "promise")} lost ${where}: ${few(lost.map(pairText), 3)}`);
    if (back.length) html(more, "p", { className: "tell-back" }, `${many(back.length, "promise")} back ${where}: ${few(back.map(pairText), 3)}`);
  }
}
const isPlain = s => s.is === "up" && s.known === "sure" && !s.untold && s.low === null && s.high === null;
function showNow() {
  const panel = $("panel-now"), list = [];
  panel.replaceChildren();
  group.names.forEach((name, e) => { const s = valueAt(group.entities[e], at); if (!isPlain(s)) list.push([e, s]); });
  html(panel, "p", { className: "hint" }, list.length ? `Changing, down, unsure or locked now (${list.length} of ${group.names.length} devices and links):`
    : group.names.length === 1 ? `${group.names[0]} is up and sure, and not locked.` : `All ${group.names.length} devices and links are up and sure, and none is locked.`);
  const ul = html(panel, "ul");
  for (const [e, s] of list.slice(0, 60)) {
    const item = button(html(ul, "li"), "", () => choose(e));
    html(item, "b", {}, group.names[e] + " ");
    const words = stateWords(s).filter(w => w !== "up" && w !== "sure"), moves = s.target.flatMap((v, k) => v === s.seen[k] ? [] : [`${wordsOf(e)[k]} ${s.seen[k]} \u2192 ${v}`]);
    html(item, "small", {}, [...words, ...moves].join("; "));
  }
  if (list.length > 60) html(panel, "p", { className: "hint" }, `and ${list.length - 60} more`);
}
function listReceipts(panel) {                           // once for a group, and not at each step
  panel.replaceChildren();
  if (!group.receipts.length) html(panel, "p", { className: "hint" }, "No proposal was decided.");
  const ul = html(panel, "ul");
  return group.receipts.map(n => {
    const entry = entryAt(n), [, ticket, verdict, ...rest] = entry.words.slice(2), ok = verdict === "accepted", ask = askedBy(entry);
    const li = html(ul, "li"), item = button(li, "", () => go(n));
    li.dataset.n = n;
    html(item, "span", { className: ok ? "yes" : "no" }, ok ? "\u2713 " : "\u2717 ");
    html(item, "b", {}, `${ticket} ${ask ? ask[1] : ""} `);
    html(item, "small", {}, `${ask ? rowsText(ask.slice(2)) : ""}: ${ok ? "version " + rest[0] : causeWords(rest)} [${n}]`);
    return { n, item };
  });
}
let listed = { group: null, items: [] };
function showReceipts() {
  if (listed.group !== group) listed = { group, items: listReceipts($("panel-receipts")) };
  let near = null;                                       // the last one not after this entry
  for (const { n, item } of listed.items) {
    const name = n === at ? "here" : n > at ? "later" : "";
    if (item.className !== name) item.className = name;
    if (n <= at) near = item;
  }
  if (tab !== "receipts" || !listed.items.length) return;
  const lists = $("lists"), room = lists.getBoundingClientRect(), box = (near || listed.items[0].item).getBoundingClientRect();
  lists.scrollTop += Math.min(0, box.top - room.top) + Math.max(0, box.bottom - room.bottom);   // the list alone, not the window
}
let promised = { group: null, key: "" };                 // what the list shows: it is made again only for another
function showPromises() {
  const panel = $("panel-promises"), yes = v => v ? "yes" : "no";
  const rows = group.promises.map((p, i) => ({ i, p, opened: p.start === 1, network: valueAt(group.network[i], at), sure: valueAt(group.sure[i], at) }));
  const bad = rows.filter(r => !r.network || !r.sure), good = rows.filter(r => r.network && r.sure);
  const key = bad.map(r => `${r.i}${yes(r.network)}${yes(r.sure)}`).join();
  if (promised.group === group && promised.key === key) return;
  promised = { group, key };
  panel.replaceChildren();
  html(panel, "p", { className: "hint" }, `Start, now: whether it held in the network at the opening, and does. As known: whether it holds in what the checker counts on. ${bad.length ? `${bad.length} of ${rows.length} don't hold in both and stand first.` : "All hold in both."}`);
  const table = html(panel, "table"), head = html(table, "tr");
  for (const t of ["promise", "need", "start", "now", "as known"]) html(head, "th", { scope: "col" }, t);
  for (const r of [...bad, ...good].slice(0, 150)) {
    const tr = html(table, "tr", { className: r.network && r.sure ? "kept" : "" });
    html(tr, "td", {}, pairText(r.i)); html(tr, "td", {}, r.p.need ? `${r.p.need} (${r.p.percent}%)` : "a way (0%)");
    for (const v of [r.opened, r.network, r.sure]) html(tr, "td", { className: v ? "yes" : "no" }, yes(v));
  }
  if (rows.length > 150) html(panel, "p", { className: "hint" }, `${rows.length - 150} more${bad.length > 150 ? "" : " that hold"} are not listed.`);
}
function showEntity() {
  const panel = $("panel-entity");
  panel.replaceChildren();
  const find = html(panel, "input", { type: "search", placeholder: "find a device or link", value: chosen === null ? "" : group.names[chosen] });
  find.setAttribute("list", "names");
  find.setAttribute("aria-label", "Find a device or link");
  find.onfocus = pause;                                  // each step makes a new field
  const told = html(panel, "p", { className: "hint" }, chosen === null ? "Click a device or a link, or type its name." : "");
  find.onchange = () => { const e = group.names.indexOf(find.value.trim()); if (e >= 0) choose(e); else if (find.value) told.textContent = `No device or link is named ${find.value}.`; };
  if (chosen === null) return;
  const s = valueAt(group.entities[chosen], at), link = group.links[chosen - group.devices.length];
  html(panel, "p", { style: "margin:6px 0" }, (link ? `Link ${link.ends.map(d => group.names[d]).join(" \u2013 ")}, capacity ${link.capacity}: ` : group.devices[chosen].tor ? "ToR: " : "Switch: ") + stateWords(s).join("; ") + ".");
  if (s.known !== "sure") tellWhys(html(panel, "p", { className: "hint", id: "not" }, "Not counted on: "), [chosen], at);
  tellSince(html(panel, "p", { className: "hint", id: "since" }), chosen, s);
  const table = html(panel, "table"), head = html(table, "tr");
  for (const t of ["", "target", "known", "really"]) html(head, "th", { scope: "col" }, t);
  wordsOf(chosen).forEach((word, k) => { const tr = html(table, "tr"); html(tr, "td", {}, word); html(tr, "td", {}, s.target[k]);
    html(tr, "td", { className: s.seen[k] === s.target[k] ? "" : "differs" }, s.seen[k]); html(tr, "td", { className: s.real[k] === s.seen[k] ? "" : "differs" }, s.real[k]); });
  const more = (word, a, b, c, differs) => { const tr = html(table, "tr"); [word, a, b, c].forEach((t, i) => html(tr, "td", { className: i === differs ? "differs" : "" }, t)); };
  more("level", "", s.level, s.works, s.level === s.works ? -1 : 3);
  more("stamp, fence", s.stamp, s.fence, "", s.stamp === s.fence ? -1 : 2);
  html(panel, "p", { className: "hint" }, "Stamp: the entry that changed or renewed the target last. Fence: the stamp of the newest command that it had begun when its known report was made.");
  const times = group.touched[chosen], near = times.findIndex(n => n > at), mid = near < 0 ? times.length : near;
  html(panel, "p", { className: "hint", style: "margin-top:8px" }, times.length ? `In ${many(times.length, "entry")}:` : "No entry touches it.");
  const ul = html(panel, "ul");
  for (const n of times.slice(Math.max(0, mid - 12), mid + 12)) html(button(html(ul, "li"), "", () => go(n), n === at ? "here" : n > at ? "later" : ""), "small", {}, `${n}  ${briefOf(n)}`);
}
const TABS = { now: ["Now", showNow], entries: ["Entries", showEntries], receipts: ["Receipts", showReceipts], promises: ["Promises", showPromises], entity: ["Device, link", showEntity] };
function showTabs() {
  for (const [key, [, show]] of Object.entries(TABS)) {
    $("panel-" + key).hidden = key !== tab;
    $("tab-" + key).setAttribute("aria-selected", key === tab);
    if (key === tab || printing && key !== "entries" && key !== "entity") show();
  }
}

"###;
