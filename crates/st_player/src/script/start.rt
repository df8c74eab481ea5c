//! What is done once, as the page opens.

/// Makes what stands once in the page, and opens it.
pub(crate) const START: &str = r###"// ---- start

document.title = `Statesman: ${few(run.groups.map(g => g.name), 2)}`;
html(document.body, "datalist", { id: "names" });
listGroups();
for (const [key, [text]] of Object.entries(TABS)) html($("tabs"), "button", { id: "tab-" + key, role: "tab", "aria-controls": "panel-" + key, onclick: () => { tab = key; showTabs(); } }, text);
for (const node of document.querySelectorAll("[data-leap]")) node.onclick = () => { pause(); leap(node.dataset.leap, 1); };
$("slide").oninput = () => { pause(); go(+$("slide").value); };
$("first").onclick = () => { pause(); go(group.first); };
$("back").onclick = () => { pause(); go(at - 1); };
$("next").onclick = () => { pause(); go(at + 1); };
$("last").onclick = () => { pause(); go(group.last); };
$("play").onclick = play;
let isPointed = false;                                   // a speed that was clicked leaves the keys to the page
$("speed").onpointerdown = () => { isPointed = true; };
$("speed").onkeydown = () => { isPointed = false; };
$("speed").onchange = () => { if (playing) { pause(); play(); } if (isPointed) $("speed").blur(); };
$("theme").onclick = otherTheme;
$("print").onclick = () => window.print();
$("help").onclick = () => $("keys").showModal();
$("copy").onclick = copyAddress;
$("legend").ontoggle = () => { if (!printing) { drawAll(); show(); } };
window.addEventListener("resize", () => { seenRows.height = 0; drawAll(); show(); });
window.addEventListener("beforeprint", beginSheet);
window.addEventListener("afterprint", endSheet);
window.addEventListener("hashchange", readAddress);
if (matchMedia("(prefers-reduced-motion: reduce)").matches) $("speed").value = "1";
theme(matchMedia("(prefers-color-scheme: dark)").matches ? "dark" : "light");
$("legend").open = !matchMedia("(max-width: 900px)").matches;
drawLegend();
readAddress();
</script>
</body>
</html>
"###;
