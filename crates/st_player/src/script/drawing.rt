//! The picture: what is drawn once for a group, what is painted at an entry, and the legend.

/// Draws a group's network, paints an entry, and draws the legend.
pub(crate) const DRAWING: &str = r###"// ---- drawing

const NS = "http://www.w3.org/2000/svg";
function make(parent, tag, attributes = {}, text) {
  const node = document.createElementNS(NS, tag);
  for (const [key, value] of Object.entries(attributes)) node.setAttribute(key, value);
  if (text !== undefined) node.textContent = text;
  parent.append(node);
  return node;
}
function html(parent, tag, attributes = {}, text) {
  const node = document.createElement(tag);
  for (const [key, value] of Object.entries(attributes)) key in node ? node[key] = value : node.setAttribute(key, value);
  if (text !== undefined) node.textContent = text;
  parent.append(node);
  return node;
}

let at = 0, group = run.groups[0], chosen = null, playing = null, tab = "now", shapes = [], layers = {};
const seen = new Map();                                  // group -> where its slider stood

function drawNetwork() {
  const svg = $("net");
  svg.replaceChildren();
  svg.style.minHeight = "";
  const { width, height: room } = svg.getBoundingClientRect();
  svg.setAttribute("class", group.links.length > 200 ? "dense" : "");
  const { place, pods, lines, top, height } = layOut(group, Math.max(200, width), Math.max(200, room));
  svg.style.minHeight = height > room ? height + "px" : "";  // a network of many rows is scrolled
  svg.setAttribute("viewBox", `0 0 ${Math.max(200, width)} ${height}`);
  const low = lines[0], high = lines.filter(l => l.k < top).pop() || low;
  for (const { left, right } of pods) make(svg, "rect", { class: "pod", x: left - 4, width: right - left + 8, y: high.y - high.h / 2 - 12, height: low.y - high.y + (low.h + high.h) / 2 + 24, rx: 8 });
  const shades = make(svg, "g", { class: "shades" }), bands = make(svg, "g"), wires = make(svg, "g"), boxes = make(svg, "g"), marks = make(svg, "g", { class: "marks" });
  layers = { bands, marks };
  for (const l of lines) if (l.name) make(svg, "text", { class: "tier", x: 12, y: l.k === 0 ? height - 3 : l.y + 4 }, l.name);
  const twins = new Map(), ranks = new Map(), most = Math.max(1, ...group.links.map(l => l.capacity));
  shapes = [];
  group.links.forEach(({ ends: [a, b], capacity }, i) => {
    const foot = place[a].y >= place[b].y ? a : b, p = place[foot], q = place[foot === a ? b : a];
    const key = Math.min(a, b) + "-" + Math.max(a, b), twin = twins.get(key) || 0, rank = ranks.get(foot) || 0;
    twins.set(key, twin + 1);
    ranks.set(foot, rank + 1);
    const level = Math.abs(p.y - q.y) < 1;
    const y1 = p.y - p.h / 2, y2 = level ? y1 : q.y + q.h / 2, bend = twin * 14 * (twin % 2 ? 1 : -1);
    const mid = { x: (p.x + q.x) / 2 + bend, y: level ? y1 - 24 - Math.abs(p.x - q.x) / 10 - twin * 10 : (y1 + y2) / 2 };
    const path = `M${p.x} ${y1}Q${mid.x} ${mid.y} ${q.x} ${y2}`;
    const node = make(wires, "path", { d: path, "stroke-width": (group.links.length > 200 ? .5 : .8) + capacity / most * (group.links.length > 200 ? .6 : 1.4) });
    const reach = make(wires, "path", { d: path, class: "reach" });
    make(reach, "title");
    reach.onclick = () => choose(group.devices.length + i);
    const t = level ? .5 : .3 + .1 * (rank % 3), spot = (from, via, to) => (1 - t) * (1 - t) * from + 2 * t * (1 - t) * via + t * t * to;   // where its marks stand
    shapes[group.devices.length + i] = { node, reach, path, spot: { x: spot(p.x, mid.x, q.x), y: spot(y1, mid.y, y2) } };
  });
  const rowOf = ({ k }) => { const list = group.devices.map((_, i) => i).filter(i => place[i].layer === k); return { list, ...place[list[0]] }; };
  const labels = labelsOf(group.names, lines.map(rowOf));
  group.devices.forEach(({ tor }, i) => {
    const { x, y, w, h, flat, size, pitch } = place[i];
    const shade = make(shades, "rect", { x: x - Math.min(pitch, w + 56) / 2, y: y - h / 2 - 16, width: Math.min(pitch, w + 56), height: h + 32, rx: pitch > w + 56 ? 8 : 0 });
    const node = make(boxes, "g", { transform: `translate(${x} ${y})` });
    const halo = frame(node, w, h, 3.5);
    make(node, "rect", { class: "box", x: -w / 2, y: -h / 2, width: w, height: h, rx: tor ? 2 : 7 });
    const label = make(node, "text", flat ? { class: "name", "text-anchor": "middle", y: 4.5, "font-size": size }
      : { class: "name", transform: "rotate(-90)", x: -h / 2 + 6, y: size * .36, "font-size": size }, labels[i]);
    const narrow = flat && w < widthOf(labels[i], size) + 36;     // then the sign stands above the name
    const sign = make(node, "text", { class: "sign", x: flat && !narrow ? w / 2 - 9 : 0, y: narrow ? -4 : flat ? 5 : -h / 2 + 12, "font-size": 13 });
    const lock = badge(node, "lock", flat ? -w / 2 + 1 : 0, h / 2, ""), untold = badge(node, "untold", flat ? w / 2 - 1 : w / 2 - 2, -h / 2, "?"), stuck = badge(node, "stuck", flat ? w / 2 - 1 : 0, h / 2, "!");
    make(node, "title");
    node.onclick = () => choose(i);
    shapes[i] = { node, shade, sign, halo, w, h, label: narrow ? label : null, lock, untold, stuck };
  });
}
const frame = (node, w, h, off) => make(node, "rect", { class: "halo", x: -w / 2 - off, y: -h / 2 - off, width: w + 2 * off, height: h + 2 * off, rx: 6 });
function badge(node, kind, x, y, text) {
  const g = make(node, "g", { class: "badge " + kind, transform: `translate(${x} ${y})` });
  make(g, "circle", { r: 6.5 });
  make(g, "text", { y: kind.startsWith("what") ? 4.6 : 3.6 }, text);
  return g;
}
const lockOf = state => state.high !== null ? "H" : state.low !== null ? "L" : "";

// What an entity is to this entry: at most two of these are drawn, the first one next to it.
const ROLES = ["pair", "asked", "chosen", "on"];
function paintDevice(shape, state, roles) {
  shape.sign.textContent = SIGN[state.is] || "";
  if (shape.label) shape.label.setAttribute("y", SIGN[state.is] ? 12 : 5);
  const locked = lockOf(state);
  shape.lock.style.display = locked ? "" : "none";
  shape.lock.lastChild.textContent = locked;
  shape.untold.style.display = state.untold ? "" : "none";
  shape.stuck.style.display = state.known === "blocked" ? "" : "none";
  shape.halo.setAttribute("class", "halo " + (roles[0] || ""));
  if (shape.outer) shape.outer.remove();
  shape.outer = roles[1] ? frame(shape.node, shape.w, shape.h, 8) : null;
  if (shape.outer) { shape.outer.setAttribute("class", "halo " + roles[1]); shape.node.prepend(shape.outer); }
}
// Where a line tells what a link is, its target that is not reached is told beside it.
const isLate = state => state.is !== "up" && (state.known === "waiting" || state.known === "blocked");
function paintLink(shape, state, roles, out) {
  if (shape.extra) for (const node of shape.extra) node.remove();
  shape.extra = null;
  const bands = [...roles].reverse().flatMap((role, i) => { const wide = roles.length - i > 1 ? " wide" : ""; return [`band${wide} ${role}`, `core${wide}`]; });
  if (out && !roles.length && state.is !== "up") bands.push("band out");
  if (isLate(state)) bands.push("band " + state.known, "core inner");
  const marks = [];
  if (state.is === "failed" || state.is === "off" || state.is === "busy") marks.push(["what " + state.is, SIGN[state.is]]);
  if (state.untold) marks.push(["untold", "?"]);
  if (state.known === "blocked") marks.push(["stuck", "!"]);
  if (lockOf(state)) marks.push(["lock", lockOf(state)]);
  if (!bands.length && !marks.length) return;
  const g = marks.length ? [make(layers.marks, "g", { class: "mark-row", transform: `translate(${shape.spot.x} ${shape.spot.y})` })] : [];
  marks.forEach(([kind, text], i) => badge(g[0], kind, 14 * (i - (marks.length - 1) / 2), 0, text));
  shape.extra = [...bands.map(kind => make(layers.bands, "path", { class: kind, d: shape.path })), ...g];
  shape.marks = g[0];
}

// A cut has two parts: the least side, and what is joined to the far end. The smaller one is shaded.
const partOf = refused => refused.part === "far" ? refused.far : refused.side;
const NONE = new Set();
function paintNetwork(entry) {
  const refused = entry && entry.refused || {}, devices = group.devices.length, set = list => list && list.length ? new Set(list) : NONE;
  const on = set(entry && entry.on), side = set(partOf(refused)), asked = set("kind" in refused ? refused.changes || entry.on : null);
  const left = set(refused.left), out = set(refused.out), pair = set("promise" in refused ? group.promises[refused.promise].ends : "of" in refused ? [refused.of] : null);
  shapes.forEach((shape, e) => {
    const state = valueAt(group.entities[e], at), link = e - devices, isLink = link >= 0;
    let names = "";
    if (pair.has(e)) names += " pair";
    if (asked.has(e)) names += " asked";
    if (e === chosen) names += " chosen";
    if (on.has(e) && !asked.has(e)) names += " on";
    const around = names;
    if (!isLink && side.has(e)) names += " side";
    if (isLink) {
      if (!state.open) names += " shut";
      if (chosen !== null && group.links[link].ends.includes(chosen)) names += " near";
      if (left.has(link)) names += " left";
      if (out.has(link)) names += " out";
    }
    if (shape.state === state && shape.names === names) return;
    Object.assign(shape, { state, names });
    const own = `${isLink ? "link" : "device"} ${state.is} ${state.known}`, roles = around ? ROLES.filter(role => around.includes(role)).slice(0, 2) : [];
    shape.node.setAttribute("class", own + names);
    (isLink ? shape.reach : shape.node).querySelector("title").textContent = group.names[e] + ": " + stateWords(state).join(", ");
    if (isLink) { paintLink(shape, state, roles, out.has(link)); return; }
    paintDevice(shape, state, roles);
    if (names) shape.node.parentNode.append(shape.node);              // what is marked lies above its neighbours
    shape.shade.setAttribute("class", side.has(e) ? "shade" : "");
  });
}
function drawLegend() {
  const legend = $("legend");
  let row;
  const line = title => { row = html(legend, "p"); html(row, "b", {}, title); };
  const device = (span, names, role, shade) => {
    const g = make(make(span, "svg", { "aria-hidden": true }), "g", { class: "device " + names, transform: "translate(12 8.5)" });
    if (shade) make(make(g, "g", { class: "shades" }), "rect", { class: "shade", x: -13, y: -9, width: 26, height: 18, rx: 3 });
    make(g, "rect", { class: "halo " + role, x: -11, y: -7.5, width: 22, height: 15, rx: 4 });
    make(g, "rect", { class: "box", x: -8, y: -5, width: 16, height: 10, rx: 2 });
    make(g, "text", { class: "sign", y: 4, "font-size": 11 }, SIGN[names.split(" ")[0]] || "");
  };
  const link = (span, names, role) => {
    const [is, known] = names.split(" "), isSigned = SIGN[is] && known === "sure", width = isSigned ? 36 : 23;
    const svg = make(span, "svg", { "aria-hidden": true, style: `width:${width}px` }), d = `M0 8.5H${width}`;
    if (role) make(svg, "path", { class: "band " + role, d });
    if (role && role !== "out") make(svg, "path", { class: "core", d });
    if (isLate({ is, known })) for (const kind of ["band " + known, "core inner"]) make(svg, "path", { class: kind, d });
    make(svg, "path", { class: "link " + names, d, "stroke-width": 1.6 });
    if (isSigned) badge(svg, "what " + is, width / 2, 8.5, SIGN[is]);
  };
  const sample = (text, { boxes = [], wires = [], marks = [], role = "", shade }) => {   // of devices, of links and of marks, and what they mean
    const span = html(row, "span");
    for (const names of boxes) device(span, names, role, shade);
    for (const names of wires) link(span, names, names.includes("failed out") ? "out" : role);
    for (const [kind, letter] of marks) badge(make(span, "svg", { "aria-hidden": true, style: "width:14px" }), kind, 7, 8.5, letter);
    span.append(text);
  };
  line("In the network:");
  for (const is of ["up", "busy", "failed", "off"]) sample(is, { boxes: [is + " sure"], wires: [is + " sure"] });
  sample("drained", { boxes: ["drained sure"] });
  sample("an end is not up", { wires: ["up sure shut"] });
  line("As known:");
  sample("sure", { boxes: ["up sure"] });
  sample("target not reached", { boxes: ["up waiting"], wires: ["up waiting", "failed waiting"] });
  sample("blocked", { boxes: ["up blocked"], wires: ["up blocked", "failed blocked"], marks: [["stuck", "!"]] });
  sample("settled, not carrying", { boxes: ["drained settled"] });
  sample("changed, not told yet", { marks: [["untold", "?"]] });
  sample("lock", { marks: [["lock", "H"], ["lock", "L"]] });
  line("This entry:");
  sample("is about it", { boxes: ["up sure"], wires: ["up sure"], role: "on" });
  sample("would change", { boxes: ["up sure"], wires: ["up sure"], role: "asked" });
  sample("pair's end, or what bars it", { boxes: ["up sure"], wires: ["up sure"], role: "pair" });
  sample("cut off", { boxes: ["up sure"], shade: true });
  sample("left", { wires: ["left"] });
  sample("not counted on", { wires: ["up out", "failed out"] });
  line("Chosen:");
  sample("a device, a link", { boxes: ["up sure"], wires: ["up sure"], role: "chosen" });
  sample("the device's links", { wires: ["up sure near", "up sure near shut"] });
  html(row, "span", {}, "Square corners: a ToR. Thick line: much capacity.");
}

"###;
