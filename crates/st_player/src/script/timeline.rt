//! The time line: promises lost, and a lane of marks for each application.

/// Draws the time line.
pub(crate) const TIMELINE: &str =
    r###"// ---- the time line: promises lost, and a lane of marks for each application

const EDGE = 8;                                          // half of the slider's knob
let gutter = 8, breadth = 0;                             // what the lanes' names take on the left; how wide all of it was drawn
const xOf = (n, width) => gutter + (width - gutter - EDGE) * (n - group.first) / Math.max(1, group.last - group.first);
const SIGNS = { fail: "\u03df", refused: "\u2717", accepted: "\u2713", back: "\u03df" }, weight = Object.keys(SIGNS);
const MOST_LANES = 4, LOSS = 20, LANE = 14;
function markOf(entry) {
  if (entry.verdict) return entry.verdict;
  if (entry.kind !== "fail") return null;
  return +entry.words[2] < WHOLE[kindOf(group, entry.on[0])] ? "fail" : "back";
}
function lanesOf(width) {                                // [name, whether an entry's mark stands in it]
  const apart = group.apps.filter(app => group.receipts.some(n => entryAt(n).app === app));
  if (apart.length > MOST_LANES || width < 600 || innerHeight < 700) return [[width < 600 ? "marks" : "receipts, failures", () => true]];
  const lanes = apart.map(app => [app, entry => entry.app === app]);
  if (group.failures.some(list => list.length)) lanes.push(["failures", entry => entry.kind === "fail"]);
  if (group.receipts.some(n => entryAt(n).app === null)) lanes.push(["other receipts", entry => entry.verdict && entry.app === null]);
  return lanes;
}
function drawLanes() {
  const svg = $("lanes"), { width } = svg.getBoundingClientRect(), most = Math.max(1, ...group.lostCount.network, ...group.lostCount.sure);
  const wide = width >= 600, lanes = lanesOf(width), top = 2 * LOSS + 5, height = top + 4 + Math.max(1, lanes.length) * LANE, names = wide ? ["lost in the network", "lost, as known"] : ["lost", "as known"];
  const room = wide ? 128 : 74, fits = text => widthOf(text, 11) <= room - 8;
  gutter = room;
  breadth = width;
  $("slide").style.marginLeft = gutter - EDGE + "px";
  $("slide").style.width = `calc(100% - ${gutter - EDGE}px)`;
  svg.replaceChildren();
  svg.style.height = height + "px";
  svg.setAttribute("viewBox", `0 0 ${width} ${height}`);
  svg.setAttribute("aria-label", `Time line of ${many(group.entries.length, "entry")}: promises lost; ${many(group.receipts.length, "receipt")}; ${many(group.failures.flat().length, "failure")}`);
  make(svg, "line", { class: "cursor", id: "cursor", y1: 0, y2: height });   // below the marks
  const name = (text, y, title) => make(make(svg, "text", { class: "lane-name", x: gutter - 8, y }, text), "title", {}, title || text);
  const loss = (set, y, label, title) => {
    const counts = group.lostCount[set], turns = counts.map((c, i) => i).filter(i => i === 0 || counts[i] !== counts[i - 1]);
    make(svg, "line", { class: "lane-line", x1: gutter, x2: width - EDGE, y1: y, y2: y });
    turns.forEach((i, k) => { if (!counts[i]) return; const x1 = xOf(group.first + i, width), x2 = xOf(k + 1 < turns.length ? group.first + turns[k + 1] : group.last, width), h = 3 + 7 * counts[i] / most;
      make(make(svg, "rect", { class: "lost-" + set, x: Math.min(x1, width - EDGE - 4), width: Math.max(4, x2 - x1), y: y - h, height: h }), "title", {}, `${many(counts[i], "promise")} ${title} from entry ${group.first + i}`);
      if (x2 - x1 > 18) make(svg, "text", { x: x1 + 3, y: y - h - 1, class: "lane-count" }, counts[i]); });
    name(cutMiddle(label, fits), y - 1, `Promises ${title}`);
  };
  loss("network", LOSS + 5, names[0], "lost in the network");
  loss("sure", top, names[1], "lost in what the checker counts on");
  const short = shortNames(lanes.map(([label]) => label), fits);
  lanes.forEach(([label, isIn], k) => {
    const y = top + (k + 1) * LANE, slots = new Map();      // one sign each 9 pixels, the weightiest
    make(svg, "line", { class: "lane-line", x1: gutter, x2: width - EDGE, y1: y - 4, y2: y - 4 });
    name(short[k], y, `Receipts of ${label}`.replace("Receipts of failures", "Failures and repairs").replace(/Receipts of (receipts, failures|marks)/, "Receipts and failures"));
    group.entries.forEach((entry, i) => {
      const kind = isIn(entry) && markOf(entry), n = group.first + i + 1;
      if (!kind) return;
      const x = xOf(n, width), slot = Math.floor(x / 9), there = slots.get(slot);
      if (!there) slots.set(slot, { kind, x, n, more: 0 });
      else if (weight.indexOf(kind) < weight.indexOf(there.kind)) slots.set(slot, { kind, x, n, more: there.more + 1 });
      else there.more++;
    });
    for (const { kind, x, n, more } of slots.values()) {
      const mark = make(svg, "text", { class: "mark " + kind, x, y }, SIGNS[kind]);
      make(mark, "title", {}, `Entry ${n}: ${sentenceOf(n)}${more ? ` (and ${more} more here)` : ""}`);
      mark.onclick = event => { event.stopPropagation(); pause(); go(n); };
    }
  });
}
$("lanes").onclick = event => { const { left, width } = $("lanes").getBoundingClientRect(); pause(); go(group.first + Math.round((event.clientX - left - gutter) / (width - gutter - EDGE) * (group.last - group.first))); };

"###;
