//! How the page looks: the page up to its body.

/// The page before its body.
pub(crate) const STYLE: &str = r###"<!doctype html>
<html lang="en">
<head>
<meta charset="utf-8">
<meta name="viewport" content="width=device-width">
<meta http-equiv="Content-Security-Policy" content="default-src 'none'; script-src 'unsafe-inline'; style-src 'unsafe-inline'; img-src data:; base-uri 'none'">
<link rel="icon" href="data:,">
<title>Statesman: a run</title>
<style>
:root { color-scheme: light; --ground: #eef1f4; --card: #fff; --ink: #16202b; --soft: #55626f; --rule: #d3dae1; --accent: #2457c5;
  --up: #d9efe5; --up-ink: #14543d; --busy: #bcd9fb; --busy-ink: #0c3f80; --failed: #f6b8b0; --failed-ink: #7d1409; --idle: #dfe3e8; --idle-ink: #3c4650;
  --sure: #2b7a5c; --waiting: #a85b00; --wire: #7a8894; --wire-shut: #8a97a3; --cut: #a3128f; --side: #e9c9f2; --pod: #e4e9ee; --lost: #c4321f; --known: #7048b8; }
:root[data-theme=dark] { color-scheme: dark; --ground: #11171d; --card: #1a222b; --ink: #e8edf2; --soft: #a3b0bc; --rule: #33404c; --accent: #8ab4ff;
  --up: #1d4a3a; --up-ink: #d3f3e6; --busy: #1d4f8c; --busy-ink: #e3f0ff; --failed: #8c2a20; --failed-ink: #ffe4e0; --idle: #3a444e; --idle-ink: #dde4ea;
  --sure: #4fae8b; --waiting: #ffb03a; --wire: #65747f; --wire-shut: #5d6a76; --cut: #ff7be9; --side: #4b2a57; --pod: #18212a; --lost: #ff7365; --known: #b79aef; }
* { box-sizing: border-box; }
html, body { height: 100%; }
body { margin: 0; display: grid; grid-template: auto minmax(0, 1fr) auto / minmax(0, 1fr) clamp(340px, 29vw, 460px); background: var(--ground); color: var(--ink);
  font: 14px/1.4 system-ui, "Segoe UI", "Liberation Sans", sans-serif; }
header, footer { grid-column: 1 / -1; background: var(--card); padding: 6px 14px; }
header { border-bottom: 1px solid var(--rule); display: flex; gap: 6px 10px; align-items: center; flex-wrap: wrap; }
footer { border-top: 1px solid var(--rule); padding: 4px 14px 8px; }
h1 { font-size: 15px; margin: 0 6px 0 0; }
button, select, input { font: inherit; color: inherit; background: var(--card); border: 1px solid var(--rule); border-radius: 5px; padding: 3px 9px; }
button, summary { cursor: pointer; }
button:hover { border-color: var(--accent); }
button:disabled { color: var(--soft); border-style: dashed; border-color: var(--rule); cursor: default; }
:focus-visible { outline: 2px solid var(--accent); outline-offset: 1px; }
[aria-selected=true] { background: var(--accent); color: var(--card); border-color: var(--accent); }
[hidden] { display: none !important; }
.space { flex: 1; }
.notice { flex: none; max-width: 100%; background: #ffe9b8; color: #4a3300; border-radius: 5px; padding: 2px 9px; }
.numbers { flex: 1 1 20em; min-width: 0; color: var(--soft); font-variant-numeric: tabular-nums; }
#groups { display: flex; gap: 4px; min-width: 0; max-width: 100%; overflow-x: auto; padding: 3px; margin: -3px; }
#groups button { white-space: nowrap; flex: none; }
#groups select { max-width: 100%; min-width: 0; }
#picture { position: relative; display: flex; flex-direction: column; min-width: 0; min-height: 0; }
#room { flex: 1; min-height: 0; overflow: auto; }
#net { height: 100%; width: 100%; display: block; }
#legend { padding: 2px 14px 6px; color: var(--soft); font-size: 12px; }
#legend summary { width: max-content; font-weight: 600; border-radius: 3px; float: right; } #legend:not([open]) summary { float: none; }
#legend p { display: flex; flex-wrap: wrap; gap: 1px 8px; margin: 1px 0 0; }
#legend span { display: inline-flex; align-items: center; gap: 5px; }
#legend svg { width: 24px; height: 17px; overflow: visible; flex: none; } #legend svg + svg { margin-left: -1px; }
aside { display: flex; flex-direction: column; min-width: 0; min-height: 0; border-left: 1px solid var(--rule); background: var(--card); }
#said { padding: 8px 14px; border-bottom: 1px solid var(--rule); max-height: 56%; overflow: auto; flex: none; min-height: 148px; background: var(--card); }
#said header { background: none; border: 0; padding: 0 0 2px; justify-content: space-between; }
#said h2 { font-size: 12px; color: var(--soft); margin: 0; font-weight: 600; }
#copy { font-size: 12px; padding: 0 7px; color: var(--soft); }
#said p { margin: 0 0 6px; }
#sentence { font-size: 15px; overflow-wrap: anywhere; }
#sentence.refused { color: var(--cut); font-weight: 600; }
#line { display: block; max-height: 4.2em; overflow: auto; }
code { font: 12px/1.35 ui-monospace, "DejaVu Sans Mono", monospace; color: var(--soft); overflow-wrap: anywhere; }
.bar { position: relative; height: 20px; border: 1px solid var(--cut); border-radius: 4px; margin: 4px 0 6px; overflow: hidden; font-size: 12px; }
.bar i { position: absolute; inset: 0 auto 0 0; background: var(--cut); opacity: .3; }
.bar b { position: absolute; inset: 0; text-align: center; font-weight: 600; }
.tell-lost { color: var(--lost); font-weight: 600; } .tell-back { color: var(--sure); font-weight: 600; }
a { color: inherit; text-underline-offset: 2px; border-radius: 2px; } a:hover { color: var(--accent); }
nav.tabs { display: flex; gap: 3px; padding: 8px 14px 0; background: var(--card); flex-wrap: wrap; }
aside nav.tabs button { padding: 3px 5px; font-size: 13px; }
#lists { flex: 1; overflow: auto; padding: 8px 14px; min-height: 0; background: var(--card); }
#lists > div:focus-visible { outline-offset: 4px; }
ul { list-style: none; margin: 0; padding: 0; }
li button, td button { border: 0; background: none; padding: 1px 3px; text-align: left; width: 100%; border-radius: 3px; }
li button:hover, td button:hover { background: var(--ground); }
li button.here { box-shadow: inset 3px 0 0 var(--accent); background: var(--ground); }
li button.later { color: var(--soft); font-style: italic; } li button.later b { font-weight: 400; }
li b { font-weight: 600; } li small { color: var(--soft); font-size: 12px; }
.hint { color: var(--soft); font-size: 13px; margin: 0 0 6px; }
.yes { color: var(--sure); } .no { color: var(--lost); font-weight: 600; }
table { border-collapse: collapse; width: 100%; font-size: 13px; font-variant-numeric: tabular-nums; }
th { text-align: left; font-weight: 600; color: var(--soft); font-size: 12px; border-bottom: 1px solid var(--rule); padding: 2px 4px; position: sticky; top: -8px; background: var(--card); }
td { padding: 1px 4px; white-space: nowrap; border-bottom: 1px solid var(--ground); }
#panel-promises td:first-child { white-space: normal; overflow-wrap: anywhere; }
td.differs { color: var(--waiting); font-weight: 700; }
/* the list of all entries: of its rows only those that are seen stand in the page */
#panel-entries { display: flex; flex-direction: column; height: 100%; min-height: 0; }
.filters { display: grid; grid-template-columns: 1fr 1fr; gap: 4px; }
.filters :is(select, input) { min-width: 0; width: 100%; padding: 2px 5px; font-size: 13px; }
.filters [type=search] { grid-column: 1 / -1; }
.filters + .hint { margin: 4px 0; display: flex; justify-content: space-between; gap: 8px; }
.filters + .hint button { font-size: 12px; padding: 0 6px; }
#rows { flex: 1; min-height: 120px; overflow-y: auto; overflow-x: hidden; position: relative; border: 1px solid var(--rule); border-radius: 4px; }
#rows div[role=option] { position: absolute; left: 0; right: 0; height: 22px; padding: 0 5px; display: grid; grid-template-columns: var(--number, 3ch) 6.5em minmax(0, 1fr); gap: 7px; font-size: 12.5px; line-height: 22px; cursor: pointer; }
#rows div[role=option] > * { overflow: hidden; text-overflow: ellipsis; white-space: nowrap; font-variant-numeric: tabular-nums; }
#rows div[role=option] > :first-child { text-align: right; color: var(--soft); } #rows i { color: var(--soft); }
#rows div[role=option]:hover { background: var(--ground); }
#rows .refused { color: var(--cut); } #rows .accepted { color: var(--sure); } #rows .fail { color: var(--lost); } #rows .turn { box-shadow: inset 3px 0 0 var(--lost); }
#rows [aria-selected=true], #rows [aria-selected=true]:hover { background: var(--accent); } #rows [aria-selected=true] > * { color: var(--card) !important; }
#lanes { width: 100%; display: block; cursor: pointer; }
#slide { width: 100%; margin: 0; display: block; padding: 0; height: 16px; appearance: none; background: none; border: 0; }
#slide::-webkit-slider-runnable-track { height: 4px; background: var(--rule); border-radius: 2px; }
#slide::-webkit-slider-thumb { appearance: none; width: 16px; height: 16px; margin-top: -6px; border-radius: 50%; background: var(--accent); }
#slide::-moz-range-track { height: 4px; background: var(--rule); border-radius: 2px; }
#slide::-moz-range-thumb { width: 16px; height: 16px; border: 0; border-radius: 50%; background: var(--accent); }
.controls { display: flex; gap: 6px; align-items: center; flex-wrap: wrap; padding-top: 4px; }
.controls #at { min-width: 10em; text-align: center; font-variant-numeric: tabular-nums; }
dialog { border: 1px solid var(--rule); border-radius: 8px; background: var(--card); color: var(--ink); max-width: 34em; }
dialog td { padding: 3px 10px 3px 0; } dialog td + td { white-space: normal; } kbd { border: 1px solid var(--rule); border-radius: 4px; padding: 0 5px; font: 12px ui-monospace, monospace; }
/* the picture: a device's fill, or a link's line, is what it is in the network; a frame is what is known of it; what lies around both is this entry's */
.pod { fill: var(--pod); }
.tier { fill: var(--soft); font-size: 11px; }
.link { fill: none; stroke: var(--wire); }
.dense .link { stroke-opacity: .5; } .dense .link:is(.left, .out, .asked, .pair, .on, .chosen, .near, .failed, .busy, .waiting, .blocked, .off) { stroke-opacity: 1; }
.link.shut { stroke: var(--wire-shut); stroke-width: 1.6; stroke-dasharray: 1 4; stroke-linecap: round; }
.link.waiting, .link.blocked { stroke: var(--waiting); stroke-width: 3; stroke-dasharray: none; }
.link.blocked { stroke-dasharray: 12 3; }
.link.busy { stroke: var(--busy-ink); stroke-width: 3; stroke-dasharray: 6 3; }
.link.off { stroke: var(--idle-ink); stroke-width: 2; stroke-dasharray: 10 4 2 4; }
.link.failed { stroke: var(--lost); stroke-width: 2.5; stroke-dasharray: 7 4; }
.link.near:not(.failed, .busy, .off, .waiting, .blocked, .left, .out) { stroke: var(--ink); } .link.near.shut:not(.failed, .busy, .off, .waiting, .blocked, .left, .out) { stroke: var(--soft); }
.link.left { stroke: var(--cut); stroke-width: 3.5; }
.link.out:not(.failed, .busy, .off, .waiting, .blocked, .asked) { stroke: var(--cut); stroke-width: 2; stroke-dasharray: 8 6; stroke-linecap: butt; }
.band { fill: none; stroke-width: 10; } .band.wide { stroke-width: 17; } .core { fill: none; stroke: var(--ground); stroke-width: 6; } .core.wide { stroke-width: 12; }
.band.on { stroke: var(--accent); } .band.chosen { stroke: var(--ink); stroke-dasharray: 4 2; } .band.asked { stroke: var(--cut); stroke-dasharray: 3 2; } .band.pair { stroke: var(--cut); stroke-width: 12; } .band.wide.pair { stroke-width: 18; }
.band.waiting, .band.blocked { stroke: var(--waiting); stroke-width: 7; } .band.blocked { stroke-dasharray: 12 3; } .core.inner { stroke-width: 4; }
.band.out { stroke: var(--cut); stroke-opacity: .35; stroke-width: 8; }
.reach { fill: none; stroke: transparent; stroke-width: 10; cursor: pointer; }
.device { cursor: pointer; }
.box { fill: var(--up); stroke: var(--sure); stroke-width: 1.6; }
.name { fill: var(--up-ink); font-family: system-ui, "Segoe UI", "Liberation Sans", sans-serif; }
.sign { font-weight: 700; fill: var(--up-ink); text-anchor: middle; }
.device.busy .box { fill: var(--busy); } .device.busy text { fill: var(--busy-ink); }
.device.failed .box { fill: var(--failed); } .device.failed text { fill: var(--failed-ink); }
.device.off .box, .device.drained .box { fill: var(--idle); } .device.off text, .device.drained text { fill: var(--idle-ink); }
.device.settled .box { stroke: var(--idle-ink); stroke-dasharray: 2 2; }
.device.waiting .box { stroke: var(--waiting); stroke-width: 3; }
.device.blocked .box { stroke: var(--waiting); stroke-width: 3; stroke-dasharray: 5 3; }
.halo { fill: none; stroke: none; }
.halo.on { stroke: var(--accent); stroke-width: 2.5; }
.halo.chosen { stroke: var(--ink); stroke-width: 2.5; stroke-dasharray: 4 2; }
.halo.asked { stroke: var(--cut); stroke-width: 2; stroke-dasharray: 3 2; }
.halo.pair { stroke: var(--cut); stroke-width: 3.5; }
.shades rect { fill: none; } .shades .shade { fill: var(--side); }
.badge circle { fill: var(--card); stroke: var(--ink); } .badge text { fill: var(--ink) !important; font-size: 10px; font-weight: 700; text-anchor: middle; }
.badge.untold circle { fill: var(--lost); stroke: var(--lost); } .badge.untold text { fill: var(--card) !important; }
.badge.stuck circle { fill: var(--card); stroke: var(--waiting); stroke-width: 1.6; } .badge.stuck text { fill: var(--waiting) !important; }
.badge.what circle { fill: var(--card); stroke: none; } .badge.what text { font-size: 13px; } .badge.what.failed text { fill: var(--lost) !important; } .badge.what.busy text { fill: var(--busy-ink) !important; } .badge.what.off text { fill: var(--idle-ink) !important; }
.marks { pointer-events: none; }
.lane-name { font-size: 11px; fill: var(--soft); text-anchor: end; } .lane-count { font-size: 11px; fill: var(--soft); } .lane-line { stroke: var(--rule); }
.lost-network { fill: var(--lost); } .lost-sure { fill: var(--known); }
.mark { font-size: 11px; text-anchor: middle; paint-order: stroke; stroke: var(--card); stroke-width: 3px; } .mark.accepted { fill: var(--sure); } .mark.refused { fill: var(--cut); font-weight: 700; } .mark.fail { fill: var(--lost); font-weight: 700; } .mark.back { fill: var(--sure); }
.cursor { stroke: var(--accent); stroke-width: 2; }
.narrow { display: none; }
@media (max-height: 700px) { #legend { font-size: 11px; padding-bottom: 2px; } #said { min-height: 120px; padding: 6px 14px; } }
@media (max-width: 900px) { html, body { height: auto; } body { display: flex; flex-direction: column; } aside { display: contents; } h1, .controls .hint { display: none; }
  header { order: 0; } #said { order: 1; max-height: none; min-height: 0; } #picture { order: 2; } #room { flex: none; height: 46vh; min-height: 260px; } aside nav.tabs { order: 3; border-top: 1px solid var(--rule); } #lists { order: 4; overflow: visible; min-height: 40vh; }
  footer { order: 5; position: sticky; bottom: 0; padding: 2px 10px 6px; } #rows { height: 46vh; flex: none; } .numbers { order: 9; flex-basis: 100%; font-size: 13px; } body > header .space { flex: 0; }
  #line { max-height: none; } body > header { padding: 6px 10px; }
  .controls { gap: 4px; } .controls :is(button, select) { padding: 3px 6px; } .controls #at { min-width: 4em; flex: 1; } .controls .space { flex-basis: 100%; height: 0; } body > header > .space { flex: 1; } .wide-only { display: none; } dialog td { padding: 1px 8px 1px 0; font-size: 12px; } dialog h1 { display: block; } }
@media (prefers-reduced-motion: reduce) { * { transition: none !important; animation: none !important; scroll-behavior: auto !important; } }
@media print { @page { size: landscape; margin: 8mm; } * { print-color-adjust: exact; -webkit-print-color-adjust: exact; } }
/* a sheet, which is what is printed: as wide and high as A4 and US letter both are, sideways */
.sheet, .sheet body { height: auto; background: none; }
.sheet body { display: grid; grid-template: auto auto auto auto minmax(240px, 1fr) auto auto / 5fr 4fr 4fr 4fr; gap: 4px 16px; width: 990px; height: 720px; margin: 0 auto; font-size: 11px; }
.sheet :is(aside, #said, #lists) { display: contents; }
.sheet :is(body > header, #said header, #sentence, #line, #picture, footer) { grid-column: 1 / -1; margin: 0; padding: 0; border: 0; background: none; position: static; }
.sheet :is(header button, header .space, #groups button:not([aria-selected=true]), nav.tabs, .controls, #slide, #panel-entries, #panel-entity, #legend summary) { display: none !important; }
.sheet body > header :is(h1, #groups, #groups [aria-selected=true]) { display: block !important; } .sheet .numbers { order: 0; flex-basis: 20em; font-size: 12px; }
.sheet #said header { order: 1; } .sheet #sentence { order: 2; } .sheet #line { order: 3; max-height: none; } .sheet #picture { order: 4; } .sheet footer { order: 6; }
.sheet #room { flex: 1; height: auto; min-height: 0; overflow: visible; } .sheet #net { min-height: 0 !important; } .sheet #legend { font-size: 10.5px; padding: 0; }
.sheet :is(#more, #panel-now, #panel-receipts, #panel-promises) { display: block !important; order: 5; min-width: 0; }
.sheet :is(#panel-now, #panel-receipts, #panel-promises) { max-height: 172px; overflow: hidden; } .sheet #lists li button { padding: 0; } .sheet #lists li button.here { padding-left: 7px; }
.sheet :is(#more p, .hint) { margin: 0 0 3px; } .sheet :is(.hint, li small, th, table) { font-size: 10.5px; } .sheet .kept { display: none; }
.sheet #more:empty, .sheet #panel-promises:not(:has(tr:not(.kept) td)) { display: none !important; }
.sheet #lists:not(:has(#panel-promises tr:not(.kept) td)) #panel-receipts { grid-column: span 2; } .sheet body:has(#more:empty) #panel-promises { grid-column: 3 / -1; }
.sheet #panel-promises > .hint:first-child { display: none; }
</style>
</head>
"###;
