//! From entry to entry and from group to group; the address; the keys.

/// Goes to an entry or a group, by address and by keys.
pub(crate) const MOVING: &str = r###"// ---- moving

function show() {
  const entry = entryAt(at), { version, pending } = valueAt(group.numbers, at), all = group.promises.length;
  const down = set => group.lostCount[set][at - group.first];
  $("numbers").textContent = `version ${version} \u00b7 ${pending} waiting \u00b7 ` + (all ? `promises: ${all - down("network")} of ${all} hold, as known ${all - down("sure")}` : "no promises");
  $("numbers").title = "Hold: in the network. As known: in what the checker counts on, by its target and by the reports.";
  for (const node of document.querySelectorAll("[data-leap]")) node.disabled = at >= group.furthest[node.dataset.leap];
  $("slide").value = at;
  $("slide").setAttribute("aria-valuetext", sentenceOf(at));
  $("at").lastChild.textContent = `${at} of ${group.last}`;
  for (const end of ["x1", "x2"]) $("cursor").setAttribute(end, xOf(at, breadth));
  paintNetwork(entry);
  if ($("net").style.minHeight) bringIntoRoom(shapes[(entry && entry.on || [])[0] ?? chosen ?? 0].node);
  showSaid(entry);
  showTabs();
}
function bringIntoRoom(node) {                           // the picture alone is scrolled, not the window
  const room = $("room"), inside = room.getBoundingClientRect(), box = node.getBoundingClientRect();
  room.scrollTop += Math.min(0, box.top - inside.top) + Math.max(0, box.bottom - inside.bottom);
}
function go(n) { at = Math.min(group.last, Math.max(group.first, n)); seen.set(group, at); keepAddress(); show(); }
function choose(e) { chosen = e; if (e !== null) tab = "entity"; show(); }
const MOST_TABS = 6;                                     // more groups stand in a list box
function listGroups() {
  const nav = $("groups");
  if (run.groups.length > MOST_TABS) {
    nav.removeAttribute("role");
    const list = html(nav, "select", { id: "group", onchange: () => { pause(); setGroup(run.groups[list.selectedIndex]); list.blur(); } });
    list.setAttribute("aria-label", "Group");
    run.groups.forEach((g, i) => html(list, "option", { value: i }, g.name));
  } else run.groups.forEach((g, i) => html(nav, "button", { role: "tab", title: `key ${i + 1}`, onclick: () => { pause(); setGroup(g); } }, g.name));
}
function showGroup() {
  const i = run.groups.indexOf(group), list = $("group");
  if (list) list.selectedIndex = i;
  else run.groups.forEach((_, k) => $("groups").children[k].setAttribute("aria-selected", k === i));
}
function setGroup(next, n) {
  group = next;
  chosen = null;
  if (tab === "entity") tab = "now";
  showGroup();
  group.furthest = {};                                   // the last entry of each kind that is gone to
  for (const kind of ["receipt", "refusal", "loss"]) group.furthest[kind] = group.first + 1 + group.entries.findLastIndex(entry => LEAP[kind](entry));
  $("slide").min = group.first;
  $("slide").max = group.last;
  const hidden = group.total - group.entries.length;
  $("notice").hidden = hidden === 0;
  $("notice").textContent = group.entries.length ? `Only entries ${group.first + 1} to ${group.last} of ${group.total} are in this page` : `None of ${group.total} entries are in this page`;
  $("names").replaceChildren();
  for (const name of group.names) html($("names"), "option", { value: name });
  drawAll();
  go(n === undefined ? seen.get(group) ?? group.first : n);
}
function otherGroup(by) { const next = run.groups[run.groups.indexOf(group) + by]; if (next) setGroup(next); }
function drawAll() { drawNetwork(); drawLanes(); }
function showPlay(sign, word) { const [first, last] = $("play").children; first.textContent = sign; last.textContent = " " + word; $("play").setAttribute("aria-label", word); }
function pause() { clearInterval(playing); playing = null; showPlay("\u25b6", "Play"); $("sentence").setAttribute("aria-live", "polite"); }
function play() {
  if (playing) return pause();
  if (at === group.last) go(group.first);
  showPlay("\u275a\u275a", "Pause");
  $("sentence").setAttribute("aria-live", "off");        // nobody can hear them so fast
  playing = setInterval(() => { go(at + 1); if (at === group.last) pause(); }, 1000 / $("speed").value);
}
const LEAP = {
  receipt: entry => entry.verdict !== null, refusal: entry => "refused" in entry,
  loss: entry => "network" in entry || "sure" in entry,
  entity: (entry, n) => chosen !== null && group.touched[chosen].includes(n),
};
function leap(kind, step) {
  for (let n = at + step; n > group.first && n <= group.last; n += step) if (LEAP[kind](entryAt(n), n)) return go(n);
}
const themeNow = () => document.documentElement.dataset.theme;
function theme(name) { document.documentElement.dataset.theme = name; $("theme").textContent = name === "dark" ? "Light" : "Dark"; }
const otherTheme = () => theme(themeNow() === "dark" ? "light" : "dark");

// ---- the address: #GROUP/ENTRY, then a theme, a list, a name, where wanted

let late = null;
function keepAddress() {                                 // not at once: browsers throttle it
  clearTimeout(late);
  late = setTimeout(() => { try { history.replaceState(null, "", `#${group.name}/${at}`); } catch { /* some refuse it for files */ } }, 400);
}
function readAddress() {
  const [name, n, ...rest] = decodeURIComponent(location.hash.slice(1)).split("/");
  for (const word of rest) { if (word === "dark" || word === "light") theme(word); else if (word in TABS) tab = word; }
  setGroup(run.groups.find(g => g.name === name) || run.groups[0], n ? +n || 0 : undefined);
  for (const word of rest) if (group.names.includes(word)) choose(group.names.indexOf(word));
}
const addressNow = () => `${location.href.split("#")[0]}#${group.name}/${at}/${themeNow()}`;
async function copyAddress() {
  const told = word => { $("copy").textContent = word; setTimeout(() => { $("copy").textContent = "Copy link to this entry"; }, 2500); };
  try { await navigator.clipboard.writeText(addressNow()); } catch {   // some allow it for no file
    const field = html($("said"), "input", { value: addressNow(), readOnly: true });
    field.select();
    const done = document.execCommand("copy");
    field.remove();
    if (!done) { prompt("The link to this entry", addressNow()); return; }
  }
  told("Copied");
}

// ---- keys

const KEYS = {
  ArrowLeft: () => go(at - 1), ArrowRight: () => go(at + 1), PageUp: () => go(at - 10), PageDown: () => go(at + 10), Home: () => go(group.first), End: () => go(group.last), " ": play,
  ArrowUp: () => stepInList(-1), ArrowDown: () => stepInList(1), a: () => { tab = "entries"; showTabs(); $("rows").focus({ preventScroll: true }); },
  r: () => leap("receipt", 1), R: () => leap("receipt", -1), f: () => leap("refusal", 1), F: () => leap("refusal", -1), l: () => leap("loss", 1), L: () => leap("loss", -1),
  e: () => leap("entity", 1), E: () => leap("entity", -1), d: otherTheme, Escape: () => choose(null), "?": () => $("keys").showModal(),
  "[": () => otherGroup(-1), "]": () => otherGroup(1), c: copyAddress,
  "/": () => { tab = "entity"; showTabs(); $("panel-entity").querySelector("input").focus(); },
};
document.addEventListener("keydown", event => {
  const field = event.target.closest("input[type=search], select, dialog"), press = event.target.closest("button, summary") && (event.key === " " || event.key === "Enter");
  if (event.key === "Escape" && event.target.matches("input[type=search], select")) event.target.blur();   // the keys move again
  if (field || press || event.ctrlKey || event.metaKey || event.altKey) return;
  const number = +event.key;
  if (number >= 1 && number <= run.groups.length) { pause(); setGroup(run.groups[number - 1]); event.preventDefault(); }
  else if (KEYS[event.key]) { if (event.key !== " ") pause(); KEYS[event.key](); event.preventDefault(); }
});

"###;
