//! The run's data, made easy to look up: each entity's past, what each entry is, whose it is.

/// Reads the data, and unfolds each group.
pub(crate) const DATA: &str = r###"</script>
<script>
"use strict";
// Everything shown is in the run's data: this script finds, draws and words it, and judges nothing.
const run = JSON.parse(document.getElementById("run").textContent);
if (!run.groups.length) run.groups.push({ name: "no group", devices: [], links: [], promises: [], first: 0, total: 0, entries: [],
  opening: { states: [], of: [], network: { lost: [] }, sure: { lost: [] }, version: 0, pending: 0 } });
const $ = id => document.getElementById(id);
const WORDS = { device: ["power", "firmware", "config", "routing"], link: ["power", "iface"] };
const IS = { up: "up", busy: "busy: a change is under way", failed: "failed", off: "power is off", drained: "drained" };
const KNOWN = { sure: "sure", settled: "settled, not carrying", waiting: "target not known to be reached", blocked: "blocked" };
const SIGN = { busy: "\u2026", failed: "\u00d7", off: "\u25cb", drained: "\u2013" };

// ---- the data, made easy to look up

// A past is a list of { at, is } in order; its value at entry n is the last one not after n.
function valueAt(past, n) {
  let low = 0, high = past.length;
  while (high - low > 1) { const mid = (low + high) >> 1; if (past[mid].at <= n) low = mid; else high = mid; }
  return past[low].is;
}
const WHOLE = { device: 5, link: 1 };                    // the health of what works
const kindOf = (group, e) => e < group.devices.length ? "device" : "link";
function unfold(group) {
  const { devices, links, opening, entries, first } = group;
  group.names = [...devices, ...links].map(part => part.name);
  group.entities = opening.of.map(kind => [{ at: first, is: opening.states[kind] }]);
  group.numbers = [{ at: first, is: { version: opening.version, pending: opening.pending } }];
  group.touched = group.names.map(() => []);
  for (const set of ["network", "sure"]) group[set] = group.promises.map((_, i) => [{ at: first, is: !opening[set].lost.includes(i) }]);
  group.lostCount = { network: [opening.network.lost.length], sure: [opening.sure.lost.length] };
  group.receipts = [];
  group.failures = group.names.map(() => []);            // of each entity its fail entries, as { at, health, was, set }
  group.orders = group.names.map(() => []);              // and the versions that changed or renewed its target, as { at, app, rows, version }
  const { set = [], failed = [] } = opening.causes || {};   // what lies before the page has no entry here to go to
  group.failedBefore = group.names.map((_, e) => failed.filter(cause => cause.entity === e).map(cause => ({ at: cause.entry, isBefore: true })));
  for (const { entity, var: k, version, app } of set) group.orders[entity].push({ at: first, isBefore: true, app: run.apps[app], version,
    rows: [`${group.names[entity]}.${WORDS[kindOf(group, entity)][k]}=${opening.states[opening.of[entity]].target[k]}`] });
  const health = opening.of.map((kind, e) => opening.states[kind].is === "failed" ? opening.states[kind].works : WHOLE[kindOf(group, e)]);
  entries.forEach((entry, i) => {
    const at = first + i + 1;
    entry.words = entry.line.split(" ");
    const colon = entry.words.indexOf(":"), reply = entry.words.slice(colon + 1), ask = entry.asked > first ? entries[entry.asked - first - 1].words : null;
    entry.kind = entry.words[0];
    entry.verdict = entry.kind === "check" && reply[0] === "receipt" ? reply[2] : null;
    entry.app = ["submit", "lock", "unlock"].includes(entry.kind) ? entry.words[1] : entry.verdict && ask ? ask[1] : null;
    const laid = entry.verdict === "accepted" ? { rows: ask ? ask.slice(2, ask.indexOf(":")) : [], version: reply[3] }
      : reply[0] === "withdrawn" ? { rows: reply.slice(2), version: reply[1] } : null;
    if (laid) for (const { entity, ...now } of entry.set || []) if ("stamp" in now) group.orders[entity].push({ at, app: entry.app, ...laid });
    if (entry.kind === "fail") {
      const [e] = entry.on, past = group.entities[e];
      group.failures[e].push({ at, health: +entry.words[2], was: health[e], real: past[past.length - 1].is.real });
      health[e] = +entry.words[2];
    }
    for (const { entity, ...now } of entry.set || []) {
      const past = group.entities[entity];
      past.push({ at, is: { ...past[past.length - 1].is, ...now } });
    }
    for (const entity of new Set([...(entry.on || []), ...(entry.set || []).map(s => s.entity).filter(e => e < devices.length)])) group.touched[entity].push(at);
    for (const set of ["network", "sure"]) {
      const { lost = [], back = [] } = entry[set] || {};
      for (const p of lost) group[set][p].push({ at, is: false });
      for (const p of back) group[set][p].push({ at, is: true });
      group.lostCount[set].push(group.lostCount[set][i] + lost.length - back.length);
    }
    if ("version" in entry || "pending" in entry) {
      const { version, pending } = { ...group.numbers[group.numbers.length - 1].is, ...entry };
      group.numbers.push({ at, is: { version, pending } });
    }
    if (entry.verdict) group.receipts.push(at);
  });
  group.last = first + entries.length;
  group.apps = [...new Set(entries.map(entry => entry.app))].filter(app => app !== null);
}
run.groups.forEach(unfold);

"###;
