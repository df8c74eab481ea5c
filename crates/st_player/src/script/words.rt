//! Sentences: what an entry says, what a state is, why an entity is not counted on.

/// Words an entry, a state, and why an entity is not counted on.
pub(crate) const WORDS: &str = r###"// ---- words

function rowsText(rows) {                                // rows that set the same to the same stand together
  const sets = new Map();
  for (const row of rows) { const [name, what] = row.split("."); sets.set(what, [...(sets.get(what) || []), name]); }
  return [...sets].map(([what, names]) => `${what.replace("=", " = ")} on ${names.join(", ")}`).join("; ");
}
const many = (n, thing) => n === 1 ? "1 " + thing : n + " " + (thing.endsWith("y") ? thing.slice(0, -1) + "ies" : thing + "s");
const few = (list, most = 6) => list.length > most ? list.slice(0, most).join(", ") + " and " + (list.length - most) + " more" : list.join(", ");
function causeWords(words) {                             // words after "refused"
  const k = words[0];
  if (k === "level") return `${words[3]} is at working level ${words[5]}, and ${words[1].replace("=", " = ")} needs level ${words[7]}.`;
  if (k === "off") return `the power would be off for ${words[1].replace("=", " = ")}.`;
  if (k === "locked") return `${words[2]} holds the ${words[3]} lock of ${words[1]}.`;
  if (words[5] === "0") return `${words[1]} and ${words[2]} could be cut off: they are promised a way at all (0 percent), and none that is sure would be left.`;
  return words[3] === "cutoff" ? `${words[1]} and ${words[2]} could be cut off: ${words[5]} is promised, nothing sure would be left.`
    : `${words[1]} and ${words[2]} could fall short: ${words[5]} is promised, ${words[7]} would be left for sure.`;
}
const was = row => row.replace("=", " = ");
function failWords(e, n, words) {                        // an entity changes of itself: by its health, and by values that are not what they were
  const { health, was: before, real } = group.failures[e].find(f => f.at === n), best = whole(e), name = group.names[e];
  const sets = words.slice(3).map(was).filter((_, k) => +words[3 + k].split("=")[1] !== real[k]);
  const head = health === before ? `${name} changes of itself${health < best ? ", and is failed as before" : ""}`
    : health === 0 ? `${name} fails` : health === best ? `${name} works again` : health < before ? `${name} fails in part: health ${health} of ${best}` : `${name} works better: health ${health} of ${best}`;
  return `${head}${sets.length ? `; now ${sets.join(", ")}` : ""}. No report has told it yet.`;
}
const SAY = {
  submit: (w, r) => r[0] === "queued" ? `${w[1]} proposes ${rowsText(w.slice(2))}. It waits as ticket ${r[1]}.` : `${w[1]} proposes ${rowsText(w.slice(2))}, and is turned away: ${r[1]} proposals wait.`,
  check: (w, r, name, ask) => {
    if (r[0] === "idle") return "The checker finds nothing waiting.";
    const what = ask ? `Ticket ${r[1]} of ${ask[1]} (${rowsText(ask.slice(2))})` : `Ticket ${r[1]}`;
    return r[2] === "accepted" ? `${what} is accepted. It is version ${r[3]} of the target.` : `${what} is refused: ${causeWords(r.slice(3))}`;
  },
  lock: (w, r) => r[0] === "granted" ? `${w[1]} takes the ${w[3]} lock of ${w[2]}.` : `${w[1]} asks for the ${w[3]} lock of ${w[2]}, which ${r[1]} holds.`,
  unlock: (w, r) => r[0] === "released" ? `${w[1]} gives back the ${w[3]} lock of ${w[2]}.` : `${w[1]} would give back the ${w[3]} lock of ${w[2]}, which ${r[1] === "-" ? "nobody" : r[1]} holds: nothing is given back.`,
  send: (w, r) => r[0] === "sent" ? `The updater sends command ${r[1]} to ${w[1]}.` : r[0] === "settled" ? `${w[1]} is settled, so nothing is sent to it.` : `Nothing is sent to ${w[1]}: by what is known, ${r[1].replace("=", " = ")} can't be set now.`,
  deliver: (w, r, name) => r[0] === "begun" ? `Command ${w[1]} arrives, and ${name} begins its change.` : r[0] === "stale" ? `Command ${w[1]} arrives at ${name} and is passed over: ${name} has begun already what entry ${r[1]} calls for.` : `Command ${w[1]} doesn't exist: ${many(+r[1], "command")} were sent.`,
  finish: (w, r) => r[0] === "done" ? `${w[1]} finishes its change.` : `${w[1]} has no change to finish: none is under way.`,
  report: (w, r) => `${w[1]} sends report ${r[1]} of what it is.`,
  hear: (w, r, name) => r[0] === "taken" ? `Report ${w[1]} is heard: it is now what is known of ${name}.` : r[0] === "old" ? `Report ${w[1]} of ${name} is heard again or late, and is passed over.` : `Report ${w[1]} doesn't exist.`,
  fail: (w, r, name, ask, entry, n) => failWords(entry.on[0], n, w),
  withdraw: (w, r) => r[0] === "withdrawn" ? `What was asked of ${w[1]} can't be set any more, and is withdrawn: ${rowsText(r.slice(2))}, as it was heard last. It is version ${r[1]} of the target.` : `Nothing is withdrawn of ${w[1]}: it is as it was asked to be, or what was asked can be set.`,
};
const entryAt = n => group.entries[n - group.first - 1];
function askedBy(entry) {                                // the words of the submit that a check decides, where this page has it
  const words = entry.asked > group.first ? entryAt(entry.asked).words : null;
  return words && words.slice(0, words.indexOf(":"));
}
function sentenceOf(n) {
  const entry = entryAt(n);
  if (!entry) return n === 0 ? "The opening, before the first entry." : `After entry ${n}: what came before is not in this page.`;
  const colon = entry.words.indexOf(":");
  return SAY[entry.kind](entry.words.slice(0, colon), entry.words.slice(colon + 1), entry.on ? group.names[entry.on[0]] : "", askedBy(entry), entry, n);
}
const whole = e => WHOLE[kindOf(group, e)];
const isKnownFailed = (e, state) => state.health !== null && state.health < whole(e);
function stateWords(state) {
  const words = [IS[state.is], KNOWN[state.known]];
  if (state.health > 0 && state.health < WHOLE.device && !("open" in state)) words.push(`known health ${state.health} of ${WHOLE.device}`);
  if (state.untold) words.push("changed since its report");
  for (const prio of ["high", "low"]) if (state[prio] !== null) words.push(`${prio} lock: ${run.apps[state[prio]]}`);
  return words;
}
function pairText(p) { return group.promises[p].ends.map(d => group.names[d]).join(" \u2013 "); }

// ---- why an entity is not counted on: [text, the entry of that, or null], of what stands in earlier entries of this page

const wordsOf = e => WORDS[kindOf(group, e)];
const lastOf = (list, n) => list.findLast(one => one.at <= n);
function orderOf(e, n, k) {                              // the newest version that sets a variable of it to its target
  const row = `${group.names[e]}.${wordsOf(e)[k]}=${valueAt(group.entities[e], n).target[k]}`;
  return lastOf(group.orders[e].filter(order => order.rows.includes(row)), n);
}
function failureTold(e, n) {                             // the failure that its known report tells of: the newest before the entry that made that
  const { told } = valueAt(group.entities[e], n), f = [...group.failedBefore[e], ...group.failures[e]].findLast(one => one.at < told);
  return [f ? `failed, entry ${f.at}` : told === 0 || group.first === 0 ? "failed at the opening" : "failed before this page", f];
}
const byWords = order => order ? `${order.app ? " by " + order.app : ""}, version ${order.version}` : "";
function whyNot(e, n) {
  const state = valueAt(group.entities[e], n), words = wordsOf(e), whys = [];
  const off = state.seen[0] === 0, drained = words[3] && state.seen[3] === 0;
  const order = k => orderOf(e, n, k), put = (text, entry) => whys.push([text, entry && !entry.isBefore ? entry.at : null]);
  if (state.known === "blocked") put("blocked", null);
  if (isKnownFailed(e, state)) {
    const [text, f] = failureTold(e, n);
    put(state.health ? `${text}: health ${state.health} of ${whole(e)}` : text, f);
  }
  state.target.forEach((value, k) => {
    if (value === state.seen[k]) return;
    const from = order(k), set = { power: ["powered off", "powered on"], routing: ["drained", "undrained"] }[words[k]];
    put(`being ${set ? set[value] || `set to ${words[k]} = ${value}` : `set to ${words[k]} = ${value}`}${byWords(from)}`, from);
  });
  if (off && state.target[0] === 0) put(`powered off${byWords(order(0))}`, order(0));
  if (drained && state.target[3] === 0) put(`drained${byWords(order(3))}`, order(3));
  if (!whys.length) { const last = lastOf(group.orders[e], n); put(state.known === "waiting" ? `no report yet of what was asked${byWords(last)}` : KNOWN[state.known], last); }
  return whys;
}

"###;
