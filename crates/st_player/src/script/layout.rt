//! Where the devices stand: layers by their distance from the ToRs, and blocks that hang together.

/// Finds the place and the size of each device's box.
pub(crate) const LAYOUT: &str =
    r###"// ---- the layout: layers by distance from the ToRs, blocks that hang together below the top layer

function layersOf({ devices, links }) {
  const near = devices.map(() => []);
  for (const { ends: [a, b] } of links) { near[a].push(b); near[b].push(a); }
  const bare = !devices.some(d => d.tor);                // a group without a ToR is one layer
  const layer = devices.map(d => d.tor || bare ? 0 : -1);
  let edge = devices.flatMap((_, i) => layer[i] === 0 ? [i] : []);
  for (let k = 1; edge.length > 0; k++) {
    edge = [...new Set(edge.flatMap(i => near[i]))].filter(i => layer[i] < 0);
    for (const i of edge) layer[i] = k;
  }
  const top = Math.max(0, ...layer);
  return { near, bare, layer: layer.map(k => k < 0 ? top + 1 : k), top };   // no way to a ToR: a row of their own, above
}
function blocksOf({ devices }, { near, layer, top }) {
  const block = devices.map(() => -1), blocks = [];
  devices.forEach((_, i) => {
    if (block[i] >= 0 || layer[i] >= Math.max(top, 1)) return;
    const mine = [i];
    block[i] = blocks.length;
    for (const j of mine) for (const k of near[j]) if (block[k] < 0 && layer[k] < Math.max(top, 1)) { block[k] = blocks.length; mine.push(k); }
    blocks.push(mine.sort((x, y) => x - y));
  });
  return blocks;
}
// A row's boxes: as wide as the longest name wants and the row has room for; where that is too little they stand upright.
function shapeOf(names, pitch, most) {
  const wide = pitch - Math.min(6, pitch / 12), longest = Math.max(...names.map(name => widthOf(name, 14)));
  if (wide >= Math.min(longest * 12 / 14, 60) + 8) {
    const w = Math.min(wide, Math.max(30, longest + 44)), size = [14, 13, 12].find(s => longest * s / 14 <= w - 8) || 12;
    return { flat: true, w, h: 34, size, letters: w - 8 };
  }
  const w = Math.min(pitch - 3, 22), size = Math.min(13, w - 2), letters = Math.min(longest * size / 14 + 1, most);
  return { flat: false, w, h: letters + 24, size, letters };
}
function layOut(group, width, height) {
  const graph = layersOf(group), { near, layer, top } = graph, margin = 14;
  let blocks = blocksOf(group, graph);
  if (blocks.every(b => b.length === 1)) blocks = blocks.length ? [blocks.flat()] : [];
  const rows = [], place = [];
  const widest = b => Math.max(...[...Array(top + 1).keys()].map(k => b.filter(i => layer[i] === k).length));
  const gap = blocks.length > 1 ? Math.min(28, width / blocks.length / 10) : 0;
  const unit = (width - 2 * margin - gap * (blocks.length - 1)) / Math.max(1, blocks.reduce((s, b) => s + widest(b), 0));
  const mean = i => { const xs = near[i].filter(j => place[j]).map(j => place[j].x); return xs.length ? xs.reduce((s, x) => s + x) / xs.length : width; };
  const put = (list, left, right, k) => {              // one row of a layer, spread evenly; too many go into several rows
    const most = Math.max(1, Math.floor((right - left) / 14)), count = Math.ceil(list.length / most), size = Math.ceil(list.length / count);
    list.forEach((i, n) => {
      const row = Math.floor(n / size), inRow = Math.min(size, list.length - row * size), pitch = (right - left) / inRow;
      place[i] = { x: left + (n % size + .5) * pitch, row, pitch };
      rows[k] = Math.max(rows[k] || 1, row + 1);
    });
  };
  const pods = [];
  let left = margin;
  for (const b of blocks) {
    const right = left + unit * widest(b);
    for (let k = 0; k <= top; k++) {
      const list = b.filter(i => layer[i] === k);
      if (k > 0) list.sort((x, y) => mean(x) - mean(y) || x - y);
      if (list.length) put(list, left, right, k);
    }
    pods.push({ left, right });
    left = right + gap;
  }
  for (const k of [Math.max(top, 1), top + 1]) {
    const list = group.devices.map((_, i) => i).filter(i => layer[i] === k && !place[i]);
    if (list.length) put(list.sort((x, y) => Math.round(mean(x) - mean(y)) || x - y), margin, width - margin, k);
  }
  // heights: as many rows as the layers have, the lowest layer at the bottom; one row alone in the middle
  const all = Array.from(rows, r => r || 1), total = all.length, shape = [], most = Math.max(60, Math.min(150, height / Math.max(1, total) * .6 - 30));
  all.forEach((r, k) => {
    const list = group.devices.map((_, i) => i).filter(i => layer[i] === k);
    shape[k] = shapeOf(list.map(i => group.names[i]), Math.min(...list.map(i => place[i].pitch)), most);
  });
  const needs = all.map((r, k) => r * (shape[k].h + 10) - 10), free = height - 62 - needs.reduce((s, h) => s + h, 0);
  const step = total > 1 ? Math.max(48, free / (total - 1)) : 0, bottom = [Math.max(height, height - free + step * (total - 1)) - 28 - (total === 1 ? Math.max(0, free / 2) : 0)];
  for (let k = 1; k < total; k++) bottom[k] = bottom[k - 1] - needs[k - 1] - step;
  group.devices.forEach((_, i) => {
    const k = layer[i], p = place[i];
    Object.assign(p, shape[k], { layer: k, y: bottom[k] - shape[k].h / 2 - p.row * (shape[k].h + 10) });
  });
  const line = k => { const i = layer.indexOf(k); return { k, y: place[i].y, h: place[i].h, apart: k > top, name: k === 0 ? graph.bare ? "" : "ToRs" : k > top ? "no way to a ToR" : "" }; };
  return { place, height: Math.max(height, (bottom[0] || 0) + 28), pods: pods.length > 1 && top > 1 ? pods : [], lines: [...Array(total).keys()].filter(k => layer.includes(k)).map(line), top };
}

"###;
