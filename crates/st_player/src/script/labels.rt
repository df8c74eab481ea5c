//! Names that fit their boxes, of which no two look equal.

/// Shortens the names of a picture.
pub(crate) const LABELS: &str =
    r###"// ---- names that fit: what a row's names share is left out first, and no two of a picture look equal

const FONT = 'system-ui, "Segoe UI", "Liberation Sans", sans-serif', pen = document.createElement("canvas").getContext("2d");
function widthOf(text, size) { pen.font = `${size}px ${FONT}`; return pen.measureText(text).width; }
const CUT = "\u2026";
function cutEnd(name, fits) {
  if (fits(name)) return name;
  let k = name.length - 1;
  while (k > 1 && !fits(name.slice(0, k) + CUT)) k--;
  return name.slice(0, k) + CUT;
}
function cutMiddle(name, fits) {
  if (fits(name)) return name;
  let k = name.length - 1;
  const cut = () => name.slice(0, k >> 1) + CUT + name.slice(name.length - (k + 1 >> 1));
  while (k > 2 && !fits(cut())) k--;
  return cut();
}
// What differs in a row's names is kept, and of the rest what fits: first the words that lead to it, then from the left without a gap.
function keepDiffering(names, fits) {
  const parts = names.map(name => name.match(/[a-z]+|[0-9]+|[^a-z0-9]+/gi) || []), count = parts[0].length, places = [...parts[0].keys()];
  if (names.length < 2 || parts.some(list => list.length !== count)) return null;
  const differs = places.map(k => parts.some(list => list[k] !== parts[0][k])), isWord = k => /[a-z0-9]/i.test(parts[0][k]);
  let ends = true;                                        // whether a cut at the beginning or the end is told
  const spelled = kept => parts.map(list => {
    let text = "", gap = "";
    list.forEach((part, k) => {
      if (kept.has(k)) { text += (gap.length > 1 ? text || ends ? CUT : "" : gap) + part; gap = ""; } else gap += part;
    });
    return text + (gap && ends ? CUT : "");
  });
  let kept = new Set(places.filter(k => differs[k])), found = spelled(kept);
  if (!found.every(fits)) { ends = false; found = spelled(kept); }
  if (!found.every(fits)) return null;
  const leads = places.filter(k => isWord(k) && !differs[k] && (differs[k + 1] || !isWord(k + 1 < count ? k + 1 : k) && differs[k + 2]));
  const isBehindKept = k => places.every(place => place >= k || !isWord(place) || kept.has(place));
  for (const k of [...leads, ...places.filter(k => isWord(k) && !differs[k])]) {
    if (!leads.includes(k) && !isBehindKept(k)) break;
    const more = new Set([...kept, k]);
    for (const next of [k - 1, k + 1]) if (next >= 0 && next < count && !isWord(next) && more.has(2 * next - k)) more.add(next);   // the sign between two that are kept
    const list = spelled(more);
    if (list.every(fits)) { kept = more; found = list; }
  }
  const shared = found[0].startsWith(CUT) ? parts[0].slice(0, Math.min(...kept)).join("") : "";
  for (let k = shared.length - 1; k > 1; k--) {          // and of the first word what fits
    const list = found.map(text => shared.slice(0, k) + text);
    if (list.every(fits)) return list;
  }
  return found;
}
function shortNames(names, fits) {                       // of one row: one way for all of them
  const differ = list => new Set(list).size === new Set(names).size;
  if (names.every(fits)) return names;
  return [keepDiffering(names, fits), names.map(name => cutEnd(name, fits)), names.map(name => cutMiddle(name, fits))].find(list => list && differ(list)) || names.map(name => cutMiddle(name, fits));
}
// The labels of all devices: rows is a list of { list, letters, size }, with the numbers of a row's devices and its room.
function labelsOf(names, rows) {
  const labels = [], taken = new Set();
  for (const { list, letters, size } of rows) {
    const fits = text => widthOf(text, size) <= letters;
    shortNames(list.map(i => names[i]), fits).forEach((label, n) => {
      const i = list[n];
      labels[i] = [label, cutEnd(`${i + 1}:${names[i]}`, fits)].find(text => !taken.has(text)) || String(i + 1);   // by its number, where nothing else tells it apart
      taken.add(labels[i]);
    });
  }
  return labels;
}

"###;
