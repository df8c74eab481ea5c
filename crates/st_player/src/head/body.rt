//! The elements that the script fills: the body up to the data.

/// The body before the data.
pub(crate) const BODY: &str = r###"<body>
<header>
  <h1>Statesman</h1>
  <nav id="groups" role="tablist" aria-label="Groups"></nav>
  <span class="numbers" id="numbers"></span>
  <span class="notice" id="notice" title="The page would be too large with all of them" hidden></span>
  <button id="theme">Dark</button><button id="print">Print</button><button id="help" title="All keys (?)">Keys</button>
</header>
<section id="picture" aria-label="The network"><div id="room"><svg id="net" role="img" aria-labelledby="sentence" aria-describedby="more"></svg></div>
  <details id="legend"><summary>Legend</summary></details></section>
<aside>
  <div id="said"><header><h2 id="head"></h2><button id="copy" title="Copy a link that opens the page at this entry (c)">Copy link to this entry</button></header>
    <p id="sentence" aria-live="polite"></p><div id="more"></div><code id="line"></code></div>
  <nav class="tabs" id="tabs" role="tablist" aria-label="Lists"></nav>
  <div id="lists">
    <div id="panel-now" role="tabpanel" aria-labelledby="tab-now"></div><div id="panel-entries" role="tabpanel" aria-labelledby="tab-entries"></div>
    <div id="panel-receipts" role="tabpanel" aria-labelledby="tab-receipts"></div><div id="panel-promises" role="tabpanel" aria-labelledby="tab-promises"></div>
    <div id="panel-entity" role="tabpanel" aria-labelledby="tab-entity"></div>
  </div>
</aside>
<footer>
  <svg id="lanes" role="img"></svg>
  <input type="range" id="slide" min="0" step="1" aria-label="Entry">
  <div class="controls">
    <button id="first" title="Opening (Home)" aria-label="Opening">|&#8592;</button><button id="back" title="One back (left)" aria-label="One entry back">&#8592;</button>
    <button id="play" title="Play or pause (space)"><span>&#9654;</span><span class="wide-only"> Play</span></button>
    <button id="next" title="One on (right)" aria-label="One entry on">&#8594;</button><button id="last" title="Last (End)" aria-label="Last entry">&#8594;|</button>
    <span id="at"><span class="wide-only">entry </span><span></span></span>
    <label><span class="wide-only">Speed</span> <select id="speed" aria-label="Speed"><option value="1">1 a second</option><option value="4" selected>4 a second</option><option value="20">20 a second</option><option value="100">100 a second</option></select></label>
    <span class="space"></span>
    <span class="hint" style="margin:0">Go to</span>
    <button data-leap="receipt" title="r, Shift+r">next receipt</button><button data-leap="refusal" title="f, Shift+f">next refusal</button>
    <button data-leap="loss" title="l, Shift+l">next loss<span class="wide-only"> or return</span></button>
  </div>
</footer>
<dialog id="keys" aria-label="Keys"><h1>Keys</h1><table>
  <tr><td><kbd>&#8592;</kbd> <kbd>&#8594;</kbd></td><td>one entry back, one on</td></tr><tr><td><kbd>Page Up</kbd> <kbd>Page Down</kbd></td><td>ten back, ten on</td></tr>
  <tr><td><kbd>Home</kbd> <kbd>End</kbd></td><td>opening, last entry</td></tr><tr><td><kbd>Space</kbd></td><td>play, pause</td></tr>
  <tr><td><kbd>r</kbd> <kbd>f</kbd> <kbd>l</kbd></td><td>next receipt, refusal, loss or return of a promise; with Shift the one before</td></tr>
  <tr><td><kbd>e</kbd></td><td>next entry of the chosen device or link; with Shift the one before</td></tr>
  <tr><td><kbd>a</kbd> <kbd>&#8593;</kbd> <kbd>&#8595;</kbd></td><td>list of all entries; the one before, the next one in it, as it is filtered</td></tr>
  <tr><td><kbd>1</kbd> to <kbd>9</kbd> <kbd>[</kbd> <kbd>]</kbd></td><td>group; the group before, the next one</td></tr><tr><td><kbd>/</kbd></td><td>find a device or link</td></tr>
  <tr><td><kbd>c</kbd></td><td>copy a link to this entry: the page's address with <code>#group/entry/theme</code>; behind it may stand a list (<code>entries</code>, <code>receipts</code>, <code>promises</code>) or a name</td></tr>
  <tr><td><kbd>d</kbd></td><td>dark, light</td></tr><tr><td><kbd>Esc</kbd></td><td>choose nothing; leave a field</td></tr></table><form method="dialog"><button>Close</button></form></dialog>
<script type="application/json" id="run">"###;
