// The parts of a page around the texts of the program. page/join writes this file from the sources of the page.

/// The part of the page before the history.
pub const BEFORE_HISTORY: &str = "\
<!doctype html>\n<html lang=\"en\">\n  <head>\n    <meta charset=\"utf-8\" />\n    <meta http-equiv=\"Content-Security-Policy\" content=\"default-sr\
c 'none'; script-src 'sha256-EWjWDar7orQPgZFMYcD4Pb4dqXa7kn+n9rRQi3u7gCI='; style-src 'sha256-jTJquuO8Y9yyyyTmwua9GNKKHP2KBzV0BBOH9S8Jh7U='; base-ur\
i 'none'; form-action 'none'\" />\n    <meta name=\"viewport\" content=\"width=device-width, initial-scale=1\" />\n    <meta name=\"referrer\" conte\
nt=\"no-referrer\" />\n    <title>Potzendai</title>\n    <style>\n:root {\n  color-scheme: light;\n  --bg: #f4f6f8;\n  --panel: #ffffff;\n  --ink: #\
1d2a33;\n  --soft: #52616b;\n  --faint: #69767f;\n  --line: #dbe2e7;\n  --lane: #ffffff;\n  --lane-odd: #f8fafb;\n  --get: #d7e5f0;\n  --get-line: #\
5a83a4;\n  --insert: #d9ecd8;\n  --insert-line: #4f8a56;\n  --replace: #cfebe8;\n  --replace-line: #3d8a84;\n  --remove: #f3e2c3;\n  --remove-line: \
#a2782a;\n  --scan: #e5def3;\n  --scan-line: #7d67ad;\n  --bad: #b23a2e;\n  --bad-fill: #f9dcd7;\n  --good: #22733a;\n  --good-fill: #dcf1e0;\n  --w\
arn: #8a5a00;\n  --warn-fill: #fbeccb;\n  --mark: #1f5673;\n  --mark-ink: #ffffff;\n  --selected: #0b63ce;\n  --match: #c2410c;\n  --after: rgb(90 1\
05 115 / 7%);\n}\n:root[data-theme='dark'] {\n  color-scheme: dark;\n  --bg: #12171b;\n  --panel: #1a2127;\n  --ink: #e3eaef;\n  --soft: #a9b6c0;\
\n  --faint: #84929c;\n  --line: #2c363e;\n  --lane: #1a2127;\n  --lane-odd: #1e262c;\n  --get: #27405a;\n  --get-line: #7fb0d8;\n  --insert: #244a2\
c;\n  --insert-line: #7cc488;\n  --replace: #1d4a47;\n  --replace-line: #6cc7bf;\n  --remove: #4d3d1c;\n  --remove-line: #d9b264;\n  --scan: #3b3157\
;\n  --scan-line: #b09ce0;\n  --bad: #ff8a7a;\n  --bad-fill: #54251f;\n  --good: #7fd596;\n  --good-fill: #1d3f28;\n  --warn: #f0c264;\n  --warn-fil\
l: #45360f;\n  --mark: #8cc8ea;\n  --mark-ink: #10202b;\n  --selected: #6fb1ff;\n  --match: #ff9d5c;\n  --after: rgb(160 180 195 / 7%);\n}\n\n* { bo\
x-sizing: border-box; }\n[hidden] { display: none !important; }\nhtml, body { height: 100%; margin: 0; }\nbody {\n  display: flex;\n  flex-direction\
: column;\n  background: var(--bg);\n  color: var(--ink);\n  font: 13px/1.45 system-ui, 'DejaVu Sans', Helvetica, Arial, sans-serif;\n}\n.mono, pre\
, kbd {\n  font-family: ui-monospace, 'DejaVu Sans Mono', Menlo, Consolas, monospace;\n  font-size: 12px;\n  unicode-bidi: isolate;\n}\nbutton, inpu\
t { font: inherit; color: inherit; }\nbutton {\n  background: var(--panel);\n  border: 1px solid var(--line);\n  border-radius: 6px;\n  padding: 3p\
x 9px;\n  cursor: pointer;\n}\nbutton:hover { border-color: var(--soft); }\nbutton[aria-pressed='true'], button[aria-selected='true'] {\n  backgroun\
d: var(--mark);\n  border-color: var(--mark);\n  color: var(--mark-ink);\n}\nbutton:disabled { opacity: 0.45; cursor: default; }\n:focus-visible { o\
utline: 2px solid var(--selected); outline-offset: 1px; }\n.link {\n  background: none;\n  border: 0;\n  border-radius: 2px;\n  padding: 0;\n  color\
: var(--selected);\n  text-align: left;\n  overflow-wrap: anywhere;\n}\n.link:hover { text-decoration: underline; }\n.soft { color: var(--soft); }\n\
.faint { color: var(--faint); }\n.bad { color: var(--bad); }\n.good { color: var(--good); }\n.gap { flex: 1; }\n.unseen {\n  position: absolute;\n  \
width: 1px;\n  height: 1px;\n  overflow: hidden;\n  clip-path: inset(50%);\n}\n\nheader {\n  display: flex;\n  flex-wrap: wrap;\n  gap: 8px 14px;\
\n  align-items: center;\n  padding: 9px 16px;\n  background: var(--panel);\n  border-bottom: 1px solid var(--line);\n}\n#badge { font-weight: 700; \
font-size: 15px; padding: 3px 12px; border-radius: 999px; white-space: nowrap; }\n#badge.no { background: var(--bad-fill); color: var(--bad); }\n#ba\
dge.yes { background: var(--good-fill); color: var(--good); }\n#badge.undecided { background: var(--warn-fill); color: var(--warn); }\n#headline { f\
lex: 1 1 320px; margin: 0; font-size: 14px; font-weight: 500; overflow-wrap: anywhere; }\n#facts { color: var(--soft); white-space: nowrap; }\n#sear\
ch { width: clamp(150px, 16vw, 250px); padding: 4px 9px; }\ninput[type='text'], input[type='search'] {\n  border: 1px solid var(--line);\n  border-r\
adius: 6px;\n  background: var(--panel);\n}\n\nmain { flex: 1; min-height: 0; display: grid; grid-template-columns: minmax(0, 1fr) clamp(340px, 28vw\
, 410px); }\n#left { display: flex; flex-direction: column; gap: 8px; min-width: 0; min-height: 0; padding: 10px 12px 10px 16px; }\n.bar { display: \
flex; flex-wrap: wrap; gap: 6px; align-items: center; }\n.bar label { display: inline-flex; gap: 5px; align-items: center; color: var(--soft); }\n.b\
ar input[type='text'] { width: 82px; padding: 3px 7px; }\n.bar input.fault { border-color: var(--bad); }\n.bar h2 { margin: 0; }\n.kind { display: i\
nline-flex; gap: 5px; align-items: center; padding: 3px 8px; }\n.kind i { width: 11px; height: 11px; border: 1px solid; border-radius: 3px; }\n.kind\
[aria-pressed='true'] { background: var(--panel); border-color: var(--soft); color: inherit; }\n.kind[aria-pressed='false'] { opacity: 0.45; text-de\
coration: line-through; }\n.mark-get { background: var(--get); color: var(--get-line); }\n.mark-insert { background: var(--insert); color: var(--ins\
ert-line); }\n.mark-replace { background: var(--replace); color: var(--replace-line); }\n.mark-remove { background: var(--remove); color: var(--remo\
ve-line); }\n.mark-scan { background: var(--scan); color: var(--scan-line); }\n#overview {\n  display: block;\n  width: 100%;\n  height: 46px;\n  bo\
rder: 1px solid var(--line);\n  border-radius: 8px;\n  background: var(--panel);\n  cursor: ew-resize;\n  touch-action: none;\n}\n#stage {\n  positi\
on: relative;\n  flex: 1;\n  min-height: 180px;\n  border: 1px solid var(--line);\n  border-radius: 8px;\n  overflow: hidden;\n  background: var(--p\
anel);\n}\n#time { position: absolute; inset: 0; display: block; width: 100%; height: 100%; cursor: grab; touch-action: none; }\n#time.drag { cursor\
: grabbing; }\n#time:focus-visible { outline-offset: -2px; }\n#none { position: absolute; inset: 40% 0 auto; text-align: center; color: var(--soft)\
; }\n#steps { background: var(--panel); border: 1px solid var(--line); border-radius: 8px; padding: 6px 10px; }\n#step { flex: 1; min-width: 120px; \
accent-color: var(--mark); }\n#step-words { min-width: 0; color: var(--soft); white-space: nowrap; overflow: hidden; text-overflow: ellipsis; }\n#le\
gend { display: flex; flex-wrap: wrap; gap: 3px 16px; margin: 0; font-size: 12px; }\n#legend span { white-space: nowrap; }\n#legend i { display: inl\
ine-block; width: 18px; height: 10px; margin-right: 6px; border-radius: 3px; vertical-align: -1px; }\n#legend .legend-few { border: 2px solid var(--\
ink); background: var(--insert); }\n#legend .legend-context { border: 1.5px dashed var(--insert-line); background: var(--insert); }\n#legend .legend\
-wrong {\n  border: 2px solid var(--bad);\n  background: repeating-linear-gradient(135deg, var(--bad-fill) 0 3px, var(--bad) 3px 4px);\n}\n#legend .\
legend-place { width: 10px; border-radius: 50%; background: var(--mark); }\n\n#right { display: flex; flex-direction: column; min-height: 0; backgro\
und: var(--panel); border-left: 1px solid var(--line); }\n[role='tablist'] { display: flex; gap: 4px; padding: 9px 12px 8px; border-bottom: 1px soli\
d var(--line); }\n[role='tabpanel'] { flex: 1 1 0; min-height: 0; overflow: auto; padding: 10px 14px; }\n#card { flex: 0 1 auto; max-height: 42%; ov\
erflow: auto; border-top: 2px solid var(--line); padding: 10px 14px; background: var(--lane-odd); }\nh2 { font-size: 13px; margin: 16px 0 6px; }\nh2\
:first-child { margin-top: 0; }\np { margin: 4px 0; overflow-wrap: anywhere; }\nol.few { list-style: none; margin: 0; padding: 0; }\nol.few li { bor\
der-left: 3px solid var(--line); padding: 3px 0 3px 9px; margin: 5px 0; overflow-wrap: anywhere; }\nol.few li.wrong { border-color: var(--bad); }\no\
l.few li.current { background: var(--lane-odd); border-left-color: var(--selected); }\ntable { border-collapse: collapse; width: 100%; }\nth { color\
: var(--soft); font-weight: 500; font-size: 12px; text-align: left; }\ntd, th { padding: 2px 8px 2px 0; vertical-align: top; overflow-wrap: anywhere\
; }\ntr.touched td { background: var(--warn-fill); }\ntr.differs td { background: var(--bad-fill); }\ndl { display: grid; grid-template-columns: aut\
o 1fr; gap: 2px 12px; margin: 6px 0; }\ndt { color: var(--soft); }\ndd { margin: 0; overflow-wrap: anywhere; }\npre {\n  max-height: 220px;\n  margi\
n: 4px 0 10px;\n  padding: 7px 9px;\n  overflow: auto;\n  border-radius: 6px;\n  background: var(--bg);\n  white-space: pre-wrap;\n  overflow-wrap: \
anywhere;\n}\n#tab-calls { display: flex; flex-direction: column; overflow: hidden; padding-bottom: 0; }\n#list { position: relative; flex: 1; min-h\
eight: 0; margin: 6px -14px 0; overflow: auto; }\n#rows { position: absolute; left: 0; right: 0; }\n.row { display: flex; gap: 8px; align-items: cen\
ter; height: 24px; padding: 0 14px; white-space: nowrap; cursor: pointer; }\n.row:hover { background: var(--lane-odd); }\n.row[aria-selected='true'\
] { background: var(--get); }\n.row span:nth-child(1) { width: 38px; text-align: right; color: var(--soft); }\n.row span:nth-child(2) { width: 30px\
; color: var(--soft); }\n.row span:nth-child(3) { flex: 1; overflow: hidden; text-overflow: ellipsis; }\n.row span:nth-child(4) { color: var(--soft)\
; font-size: 11px; }\n\n#tip {\n  position: fixed;\n  z-index: 9;\n  max-width: 440px;\n  padding: 6px 9px;\n  border-radius: 6px;\n  pointer-events\
: none;\n  background: var(--ink);\n  color: var(--panel);\n  font: 12px/1.4 ui-monospace, 'DejaVu Sans Mono', monospace;\n  white-space: pre-wrap;\
\n  overflow-wrap: anywhere;\n}\nkbd { border: 1px solid var(--line); border-bottom-width: 2px; border-radius: 4px; padding: 0 5px; white-space: now\
rap; }\n#help { position: fixed; z-index: 10; inset: 0; display: grid; place-items: center; background: rgb(0 0 0 / 45%); }\n#help > div { max-width\
: 640px; max-height: 88vh; padding: 18px 24px; overflow: auto; border-radius: 10px; background: var(--panel); }\n\n@media (max-width: 1000px) {\n  b\
ody { height: auto; }\n  main { display: block; }\n  #headline { flex-basis: 100%; }\n  #facts { white-space: normal; }\n  #stage { height: 420px; }\
\n  #right { border-left: 0; border-top: 1px solid var(--line); }\n  #card { max-height: none; }\n  [role='tabpanel'] { flex: none; }\n  #list { fle\
x: none; height: 420px; }\n}\n@media print {\n  html, body { height: auto; background: #ffffff; }\n  main { display: block; }\n  #left > .bar, #step\
s, #overview, [role='tablist'], #tip, #help, .noprint, aside button:not(.link) { display: none !important; }\n  .link { color: inherit; }\n  #stage \
{ height: auto; overflow: visible; break-inside: avoid; }\n  #time { position: static; height: auto; }\n  #right { border: 0; }\n  #card { max-heigh\
t: none; background: none; }\n  [role='tabpanel'] { overflow: visible; }\n  header { border-bottom: 1px solid #999999; }\n}\n@media (forced-colors: \
active) {\n  button[aria-pressed='true'], button[aria-selected='true'] { border-width: 3px; }\n}\n</style>\n  </head>\n  <body>\n    <header>\
\n      <span id=\"badge\"></span>\n      <h1 id=\"headline\"></h1>\n      <span id=\"facts\"></span>\n      <input type=\"search\" id=\"search\" cl\
ass=\"noprint\" placeholder=\"/  3164, #call, @event, k5, words\" spellcheck=\"false\" autocomplete=\"off\" aria-label=\"Search: a value, #call, @ev\
ent, k and a key, p and a process, or words of a call or a note\" />\n      <button id=\"theme\" class=\"noprint\" title=\"Light or dark (D)\">Dark<\
/button>\n      <button id=\"show-help\" class=\"noprint\" title=\"Keys and legend (?)\" aria-label=\"Keys and legend\">?</button>\n    </header>\
\n    <main>\n      <section id=\"left\" aria-label=\"Timeline\">\n        <div class=\"bar\">\n          <button id=\"show-few\" title=\"Only the c\
alls that explain the verdict, those that they miss, and those that wrote what they read (E)\">Explaining calls</button>\n          <button id=\"sho\
w-all\" title=\"Every call (A)\">All calls</button>\n          <button id=\"show-fault\" title=\"Where it goes wrong, among all calls (F)\">Go to th\
e fault</button>\n          <span class=\"gap\"></span>\n          <span id=\"kinds\" class=\"bar\" role=\"group\" aria-label=\"Kinds of calls\"></s\
pan>\n          <label>keys <input type=\"text\" id=\"keys\" placeholder=\"all, 5, 7..9\" spellcheck=\"false\" autocomplete=\"off\" /></label>\
\n          <label>processes <input type=\"text\" id=\"processes\" placeholder=\"all, 0, 3\" spellcheck=\"false\" autocomplete=\"off\" /></label>\
\n        </div>\n        <canvas id=\"overview\" aria-hidden=\"true\"></canvas>\n        <div id=\"stage\">\n          <canvas id=\"time\" tabindex\
=\"0\" role=\"application\" aria-label=\"Timeline of calls. Left and right arrows go along a process, up and down arrows to another process, comma a\
nd full stop along the order. The tab Calls has the same calls as a list.\"></canvas>\n          <div id=\"none\" hidden>No call passes the filter. \
<button class=\"link\" id=\"clear-filter\">Show all calls</button></div>\n        </div>\n        <div id=\"steps\" class=\"bar\">\n          <butto\
n id=\"first\" title=\"Before the first call\" aria-label=\"To the start\">|◀</button>\n          <button id=\"back\" title=\"Step back (,)\" aria-l\
abel=\"Step back\">◀</button>\n          <button id=\"forward\" title=\"Step (.)\" aria-label=\"Step\">▶</button>\n          <button id=\"last\" tit\
le=\"As far as it goes\" aria-label=\"To the end\">▶|</button>\n          <input type=\"range\" id=\"step\" min=\"0\" value=\"0\" aria-label=\"Step \
of the order\" />\n          <span id=\"step-words\" class=\"mono\"></span>\n        </div>\n        <p id=\"legend\" class=\"soft\">\n          <sp\
an><i class=\"legend-few\"></i>explains the verdict</span>\n          <span><i class=\"legend-context\"></i>missed, or wrote what is read</span>\
\n          <span><i class=\"legend-wrong\"></i>goes wrong</span>\n          <span><i class=\"legend-place\"></i>place in an order</span>\
\n          <span><b class=\"good\">→</b> who read it</span>\n          <span><b class=\"bad\">⇢</b> who missed it</span>\n          <span>columns a\
re events, not time</span>\n        </p>\n      </section>\n      <aside id=\"right\" aria-label=\"Explanation and details\">\n        <div role=\"t\
ablist\">\n          <button role=\"tab\" id=\"to-why\" aria-controls=\"tab-why\">Why</button>\n          <button role=\"tab\" id=\"to-map\" aria-co\
ntrols=\"tab-map\">Map</button>\n          <button role=\"tab\" id=\"to-calls\" aria-controls=\"tab-calls\">Calls</button>\n          <button role=\
\"tab\" id=\"to-data\" aria-controls=\"tab-data\">Data</button>\n        </div>\n        <div role=\"tabpanel\" id=\"tab-why\" aria-labelledby=\"to-\
why\" tabindex=\"0\"></div>\n        <div role=\"tabpanel\" id=\"tab-map\" aria-labelledby=\"to-map\" tabindex=\"0\" hidden></div>\n        <div rol\
e=\"tabpanel\" id=\"tab-calls\" aria-labelledby=\"to-calls\" hidden>\n          <div id=\"list-head\"></div>\n          <div id=\"list\" role=\"list\
box\" tabindex=\"0\" aria-label=\"Calls\">\n            <div id=\"rows\"></div>\n            <div id=\"list-height\"></div>\n          </div>\
\n        </div>\n        <div role=\"tabpanel\" id=\"tab-data\" aria-labelledby=\"to-data\" tabindex=\"0\" hidden></div>\n        <section id=\"car\
d\" aria-label=\"Selected call\" hidden></section>\n      </aside>\n    </main>\n    <div id=\"tip\" hidden></div>\n    <div id=\"live\" class=\"uns\
een\" role=\"status\" aria-live=\"polite\"></div>\n    <div id=\"help\" role=\"dialog\" aria-modal=\"true\" aria-label=\"Keys and legend\" hidden>\
\n      <div>\n        <h2>Keys</h2>\n        <table>\n          <tr><td><kbd>← →</kbd></td><td>the call before or after, on the same process</td></\
tr>\n          <tr><td><kbd>↑ ↓</kbd></td><td>another process</td></tr>\n          <tr><td><kbd>, .</kbd></td><td>step back or on in the order</td><\
/tr>\n          <tr><td><kbd>+ - 0</kbd></td><td>zoom in or out, fit. The wheel zooms; with Shift it moves, with Alt it scrolls the processes</td></\
tr>\n          <tr><td><kbd>E A F</kbd></td><td>explaining calls, all calls, the fault among all calls</td></tr>\n          <tr><td><kbd>/</kbd></td\
><td>search: 3164 a value, #12 a call, @40 an event, k5 a key, p3 a process, or words of a call or a note</td></tr>\n          <tr><td><kbd>n N</kbd\
></td><td>the next or the previous call that was found</td></tr>\n          <tr><td><kbd>D</kbd></td><td>light or dark</td></tr>\n          <tr><td>\
<kbd>Esc</kbd></td><td>clear the search, then deselect the call</td></tr>\n        </table>\n        <h2>What is drawn</h2>\n        <p>A bar is a c\
all, from its invocation to its response, in the lane of its process. It is open at the right if it is pending. Columns are events in their order, n\
ot time. Filled circles are places in an order.</p>\n        <p>Thick frames: the calls that explain the verdict. Dashed frames: calls that they mis\
s, or that wrote what they read. Red stripes: where it goes wrong. A green arrow goes from a writer to its reader, a red one to who missed it. The s\
trip below the lanes shows what a key holds along the order.</p>\n        <p><button id=\"close-help\">Close</button></p>\n      </div>\n    </div>\
\n    <noscript><p>This page draws with JavaScript. The texts of the program are in its source, in the blocks history, judge, locate, explain and or\
der.</p></noscript>\n    <!-- Each block has a text of the program as it is, except that each \"<\" is written \\u003c, which JSON reads as the same\
. -->\n    <script type=\"application/json\" id=\"history\">";

/// The part between the history and the line of `judge`.
pub const BEFORE_JUDGE: &str = "\
</script>\n    <script type=\"application/json\" id=\"judge\">";

/// The part between the line of `judge` and that of `locate`.
pub const BEFORE_LOCATE: &str = "\
</script>\n    <script type=\"application/json\" id=\"locate\">";

/// The part between the line of `locate` and the lines of `explain`.
pub const BEFORE_EXPLAIN: &str = "\
</script>\n    <script type=\"application/json\" id=\"explain\">";

/// The part between the lines of `explain` and the line of an order.
pub const BEFORE_ORDER: &str = "\
</script>\n    <script type=\"application/json\" id=\"order\">";

/// The part after the line of an order.
pub const AFTER_ORDER: &str = "\
</script>\n    <script>\n'use strict';\n\n// ---- Reading: a number stays the decimal text that it is, since keys go up to 2^64 - 1 ----\n\n// A str\
ing of a JSON text. A number is a plain string.\nclass Word {\n  constructor(text) {\n    this.text = text;\n  }\n}\n\n// Reads one JSON value. Obje\
cts have no prototype, of equal members the last counts, and a note stays raw text.\nclass Reader {\n  constructor(text) {\n    this.text = text;\
\n    this.at = 0;\n  }\n\n  // The code of the next character that is no white space.\n  next() {\n    for (;;) {\n      const code = this.text.cha\
rCodeAt(this.at);\n      if (code !== 32 && code !== 10 && code !== 13 && code !== 9) return code;\n      this.at++;\n    }\n  }\n\n  string() {\
\n    const from = this.at++;\n    let plain = true;\n    for (;;) {\n      const code = this.text.charCodeAt(this.at);\n      if (Number.isNaN(code\
)) throw new Error('the text ends in a string');\n      if (code === 34) break;\n      if (code === 92) plain = false;\n      this.at += code === 9\
2 ? 2 : 1;\n    }\n    this.at++;\n    return plain ? this.text.slice(from + 1, this.at - 1) : JSON.parse(this.text.slice(from, this.at));\n  }\n\
\n  // Skips a value of any depth, without recursion, and returns its text.\n  raw() {\n    this.next();\n    const from = this.at;\n    let depth \
= 0;\n    do {\n      const code = this.text.charCodeAt(this.at);\n      if (Number.isNaN(code)) throw new Error('the text ends in a value');\
\n      if (code === 34) {\n        this.string();\n        continue;\n      }\n      const ends = code === 125 || code === 93;\n      if (!depth &\
& (ends || code === 44)) break;\n      if (code === 123 || code === 91) depth++;\n      if (ends) depth--;\n      this.at++;\n      if (!depth && en\
ds) break;\n    } while (this.at < this.text.length);\n    return this.text.slice(from, this.at).trimEnd();\n  }\n\n  object() {\n    const members \
= Object.create(null);\n    this.at++;\n    if (this.next() === 125) {\n      this.at++;\n      return members;\n    }\n    for (;;) {\n      this.n\
ext();\n      const name = this.string();\n      this.next();\n      this.at++;\n      members[name] = name === 'note' ? this.raw() : this.value();\
\n      this.next();\n      if (this.text[this.at++] === '}') return members;\n    }\n  }\n\n  array() {\n    const items = [];\n    this.at++;\
\n    if (this.next() === 93) {\n      this.at++;\n      return items;\n    }\n    for (;;) {\n      items.push(this.value());\n      this.next();\
\n      if (this.text[this.at++] === ']') return items;\n    }\n  }\n\n  value() {\n    const code = this.next();\n    if (code === 123) return this\
.object();\n    if (code === 91) return this.array();\n    if (code === 34) return new Word(this.string());\n    const plain = /[\\w+.-]+/y;\n    pl\
ain.lastIndex = this.at;\n    const found = plain.exec(this.text);\n    if (!found) throw new Error('no JSON at character ' + this.at);\n    this.a\
t = plain.lastIndex;\n    const words = { null: null, true: true, false: false };\n    return found[0] in words ? words[found[0]] : found[0];\n  }\n\
}\n\nconst read = text => new Reader(text).value();\nconst $ = id => document.getElementById(id);\nconst blockText = id => $(id).textContent;\ncons\
t blockLines = id =>\n  blockText(id)\n    .split('\\n')\n    .filter(line => line.trim())\n    .map(read);\n\n// ---- Words ----\n\n// Compares tw\
o numbers by their decimal texts.\nconst compare = (a, b) => a.length - b.length || (a < b ? -1 : a > b ? 1 : 0);\nconst plainNumber = text => text.\
replace(/^0+(?=\\d)/, '');\nconst many = (count, word) => `${count} ${word}${count === 1 ? '' : word.endsWith('s') ? 'es' : 's'}`;\n\nfunction say(v\
alue) {\n  if (value === null || value === undefined) return 'none';\n  if (value instanceof Word) return value.text;\n  return Array.isArray(value\
) ? '[' + value.map(pair => `[${pair}]`).join(',') + ']' : value;\n}\n\n// Characters that show nothing, or that move others, are spelled.\nconst UN\
SEEN = new RegExp(\n  '[\\\\u0000-\\\\u0009\\\\u000b-\\\\u001f\\\\u007f-\\\\u009f\\\\u00ad\\\\u061c\\\\u115f\\\\u1160\\\\u17b4\\\\u17b5\\\\u180b-\\\
\\u180f' +\n    '\\\\u200b-\\\\u200f\\\\u2028-\\\\u202f\\\\u2060-\\\\u206f\\\\u3164\\\\ufe00-\\\\ufe0f\\\\ufeff\\\\uffa0\\\\ufff0-\\\\uffff' +\n    \
'\\\\u{e0000}-\\\\u{e0fff}\\\\ud800-\\\\udfff]',\n  'gu',\n);\nconst visible = text => text.replace(UNSEEN, c => `\\\\u{${c.codePointAt(0).toString(\
16)}}`);\n// A note as it was before its \"<\" were escaped: an escape after an even number of backslashes.\nconst noteWords = raw => visible(raw.re\
place(/(\\\\\\\\)|\\\\u003c/g, (escape, pair) => pair || '<'));\n\n// ---- The history ----\n\nconst KINDS = ['get', 'insert', 'replace', 'remove', \
'scan'];\nconst recorded = read(blockText('history'));\nconst events = recorded.events;\nconst start = recorded.start || [];\nconst calls = [];\n// \
The call of each event, by its number.\nconst callAt = new Int32Array(events.length);\nconst processes = [];\n// How many calls were open as others \
began, in all.\nlet openAtOthers = 0;\n{\n  const open = new Map();\n  const seen = new Set();\n  events.forEach((event, place) => {\n    const proc\
ess = +event.process;\n    seen.add(process);\n    let call = open.get(process);\n    if ('invoke' in event) {\n      const [kind, key, a, b] = even\
t.invoke;\n      call = { number: calls.length, process, kind: kind.text, key, a, b, note: event.note };\n      Object.assign(call, { from: place, t\
o: -1, answer: undefined, place: -1 });\n      openAtOthers += open.size;\n      open.set(process, call);\n      calls.push(call);\n    } else {\
\n      Object.assign(call, { to: place, answer: event.answer, answerNote: event.note });\n      open.delete(process);\n    }\n    callAt[place] = c\
all.number;\n  });\n  processes.push(...[...seen].sort((a, b) => a - b));\n}\nconst callOf = event => calls[callAt[+event]];\nconst overlap = (openA\
tOthers / Math.max(1, calls.length)).toFixed(2);\n\nconst isPending = call => call.to < 0;\nconst isScan = call => call.kind === 'scan';\nconst isAn\
swer = (call, word) => call.answer instanceof Word && call.answer.text === word;\nconst callWords = call => [call.kind, call.key, call.a, call.b].fi\
lter(x => x !== undefined).join(' ');\nconst answerWords = call => (isPending(call) ? 'pending' : say(call.answer));\nconst spanWords = call => (isP\
ending(call) ? `event ${call.from} on, pending` : `events ${call.from} to ${call.to}`);\nfunction words(call, most = 300) {\n  const all = `${callWo\
rds(call)}: ${answerWords(call)}`;\n  return all.length > most ? all.slice(0, most) + '..' : all;\n}\n\n// The value that a call writes.\nfunction w\
ritten(call) {\n  if (isAnswer(call, 'refused')) return undefined;\n  return call.kind === 'insert' ? call.a : call.kind === 'replace' ? call.b : un\
defined;\n}\n// The pairs of a key and a value that a response reports.\nfunction reported(call) {\n  if (isPending(call) || call.answer === null |\
| call.answer instanceof Word) return [];\n  return Array.isArray(call.answer) ? call.answer : [[call.key, call.answer]];\n}\nconst touches = (call\
, key) =>\n  isScan(call) ? compare(call.key, key) <= 0 && compare(key, call.a) <= 0 : call.key === key;\n\nconst startValues = new Map(start);\ncon\
st writerTable = new Map();\nconst readerTable = new Map();\nconst keySet = new Set(startValues.keys());\nfor (const call of calls) {\n  const note \
= (table, key, value) => {\n    const name = `${key} ${value}`;\n    if (!table.has(name)) table.set(name, []);\n    if (table.get(name).at(-1) !== \
call) table.get(name).push(call);\n  };\n  if (!isScan(call)) keySet.add(call.key);\n  if (written(call) !== undefined) note(writerTable, call.key, \
written(call));\n  for (const [key, value] of reported(call)) {\n    keySet.add(key);\n    note(readerTable, key, value);\n  }\n}\nconst keys = [...\
keySet].sort(compare);\nconst writers = (key, value) => writerTable.get(`${key} ${value}`) || [];\nconst readers = (key, value) => readerTable.get(`\
${key} ${value}`) || [];\n\n// ---- The lines of the program ----\n\nconst judged = blockLines('judge')[0];\nconst located = blockLines('locate')[0]\
;\nconst verdict = judged.verdict.text;\nconst locatedVerdict = located.verdict.text;\n// The call whose response no order explains.\nconst wrong = \
locatedVerdict === 'no' ? callOf(located.event) : null;\nconst segmentWords = judged.lo === judged.hi ? `key ${judged.lo}` : `keys ${judged.lo} to $\
{judged.hi}`;\n\nconst few = [];\nconst origins = [];\n// The values from which the few calls begin, and who wrote them, by rising key.\nconst fewBe\
gin = [];\nlet fewHistory = null;\nlet front = null;\nfor (const line of blockLines('explain').filter(it => !it.verdict)) {\n  if (line.from !== und\
efined && line.put !== undefined) {\n    fewBegin.push({ key: line.key, value: line.from, writer: line.put && callOf(line.put.event) });\n  } else i\
f (line.reason) {\n    const misses = (line.misses || []).map(missed => callOf(missed.event));\n    few.push({ call: callOf(line.event), reason: lin\
e.reason.text, answer: line.answer, misses });\n  } else if (line.puts) {\n    origins.push({ ...line, puts: line.puts.map(put => callOf(put.event)\
) });\n  } else if (line.events) {\n    fewHistory = line;\n  } else if (line.front) {\n    const next = line.next.map(x => ({ call: callOf(x.event)\
, answer: x.answer, would: x.would }));\n    front = { calls: line.front.map(callOf), holds: line.holds, next };\n  }\n}\n// A few calls without an \
order refute the history, also where `locate` is undecided.\nconst shownVerdict = verdict !== 'undecided' ? verdict : few.length ? 'no' : locatedVer\
dict;\nconst fewOf = new Map(few.map(it => [it.call, it]));\n// The few calls, those that they miss, and those that wrote what they read.\nconst exp\
laining = new Set(few.flatMap(it => [it.call, ...it.misses]));\norigins.flatMap(it => it.puts).forEach(call => explaining.add(call));\nfewBegin.filt\
er(it => it.writer).forEach(it => explaining.add(it.writer));\nif (wrong) explaining.add(wrong);\nconst isLeftOut = it => it.answer instanceof Word \
&& it.answer.text === 'left out';\nconst isOpen = it => it.answer instanceof Word && it.answer.text === 'open';\n\n// ---- The order, replayed ----\
\n\nconst orderLine = blockLines('order')[0];\n// All events up to this one have the order below; those of the few calls, where nothing else is know\
n.\nlet orderedTo = 0;\nlet order = [];\nlet orderIsOfFew = false;\nif (orderLine && orderLine.order) {\n  order = orderLine.order.map(number => cal\
ls[+number]);\n  orderedTo = orderLine.event === undefined ? events.length : +orderLine.event;\n} else if (judged.order) {\n  order = judged.order.m\
ap(number => calls[+number]);\n  orderedTo = events.length;\n} else if (front) {\n  order = front.calls;\n  orderIsOfFew = true;\n}\nconst isAnswere\
d = call => !isPending(call) && call.to < orderedTo;\n\n// What each key holds from which step on: {step, value, call}, by rising step.\nconst live\
s = new Map(keys.map(key => [key, []]));\n// Where the replay disagrees with the program.\nlet replayFault = '';\n\nfunction wouldAnswer(call, holds\
) {\n  if (!isScan(call)) return holds(call.key) === undefined ? null : holds(call.key);\n  return keys.filter(key => touches(call, key) && holds(ke\
y) !== undefined).map(key => [key, holds(key)]);\n}\n// Whether a response is one that the map gives that would answer so.\nfunction fits(call, woul\
d) {\n  const answer = call.answer;\n  if (!(answer instanceof Word)) return say(answer) === say(would) && Array.isArray(answer) === Array.isArray(w\
ould);\n  if (answer.text === 'found') return !isScan(call) && would !== null;\n  return answer.text === 'done' || answer.text === 'refused' || (cal\
l.kind === 'replace' && would !== call.a);\n}\n\n{\n  const now = new Map();\n  const set = (key, step, value, call) => {\n    if (!lives.has(key)) \
lives.set(key, []);\n    lives.get(key).push({ step, value, call });\n    if (value === null) now.delete(key);\n    else now.set(key, value);\n  };\
\n  const begin = orderIsOfFew ? (fewHistory && fewHistory.start) || [] : start;\n  for (const [key, value] of begin) set(key, 0, value, null);\n  l\
et latest = -1;\n  order.forEach((call, place) => {\n    const step = place + 1;\n    call.place = place;\n    latest = Math.max(latest, call.from);\
\n    if (!replayFault && isAnswered(call)) {\n      const would = wouldAnswer(call, key => now.get(key));\n      if (!fits(call, would)) replayFaul\
t = `at place ${place} call ${call.number} is answered otherwise`;\n      if (latest >= call.to) replayFault = `call ${call.number} has a place afte\
r its response`;\n    }\n    if (isAnswer(call, 'refused') && !isPending(call)) return;\n    if (call.kind === 'insert') set(call.key, step, call.a\
, call);\n    else if (call.kind === 'remove' && now.has(call.key)) set(call.key, step, null, call);\n    else if (call.kind === 'replace' && now.ge\
t(call.key) === call.a) set(call.key, step, call.b, call);\n  });\n  const missing = orderIsOfFew ? undefined : calls.find(call => isAnswered(call) \
&& call.place < 0);\n  if (missing && order.length) replayFault = replayFault || `call ${missing.number} has no place`;\n  const ends = say([...now]\
.sort((a, b) => compare(a[0], b[0])));\n  if (orderIsOfFew && ends !== say(front.holds)) replayFault = `the map of the few calls would hold ${ends}`\
;\n}\n\n// The last of a sorted list that is at most a bound, by what is measured of its items.\nfunction lastUpTo(list, bound, measure) {\n  let lo\
w = 0;\n  let high = list.length;\n  while (low < high) {\n    const middle = (low + high) >> 1;\n    if (measure(list[middle]) <= bound) low = midd\
le + 1;\n    else high = middle;\n  }\n  return low - 1;\n}\nconst lifeAt = (key, step) => {\n  const life = lives.get(key) || [];\n  return life[la\
stUpTo(life, step, it => it.step)];\n};\nconst holdsAt = (key, step) => {\n  const life = lifeAt(key, step);\n  return life && life.value !== null \
? life.value : undefined;\n};\n\n// ---- Moments: the events, and each place of the order after the latest invocation up to it ----\n\nconst momentO\
f = new Int32Array(events.length + 1);\nconst pointOf = new Int32Array(calls.length).fill(-1);\n// The number of the call of each moment.\nconst mom\
ents = [];\n{\n  const points = new Map();\n  let latest = -1;\n  for (const call of order) {\n    latest = Math.max(latest, call.from);\n    if (!p\
oints.has(latest)) points.set(latest, []);\n    points.get(latest).push(call);\n  }\n  for (let event = 0; event < events.length; event++) {\n    mo\
mentOf[event] = moments.length;\n    moments.push(callAt[event]);\n    for (const call of points.get(event) || []) {\n      pointOf[call.number] = m\
oments.length;\n      moments.push(call.number);\n    }\n  }\n  momentOf[events.length] = moments.length;\n}\n\n// ---- What is shown: filters clos\
e the gaps between events ----\n\nconst filter = { few: explaining.size > 0, kinds: new Set(KINDS), keys: null, processes: null };\nlet shown = [];\
\nlet lanes = [];\nlet shownBy = new Map();\nconst isShown = new Uint8Array(calls.length);\n// The column of each moment; a hidden one has that of t\
he next that is shown.\nconst columnAt = new Int32Array(moments.length + 1);\nlet columns = 0;\nlet selected = null;\nlet hovered = null;\nlet step \
= order.length;\nlet matches = [];\nlet matchSet = new Set();\n\n// Reads \"5, 7..9\": null for all, undefined for a fault.\nfunction readRanges(tex\
t) {\n  if (!text.trim() || text.trim() === 'all') return null;\n  const ranges = [];\n  for (const part of text.split(/[\\s,]+/).filter(Boolean)) {\
\n    const found = /^(\\d+)(?:(?:\\.\\.|-)(\\d+))?$/.exec(part);\n    if (!found) return undefined;\n    ranges.push([plainNumber(found[1]), plainN\
umber(found[2] || found[1])]);\n  }\n  return ranges;\n}\nconst meets = (ranges, low, high) =>\n  !ranges || ranges.some(([a, b]) => compare(low, b\
) <= 0 && compare(a, high) <= 0);\nfunction passes(call) {\n  if (filter.few) return explaining.has(call) || call === selected;\n  const process = S\
tring(call.process);\n  return (\n    filter.kinds.has(call.kind) &&\n    meets(filter.processes, process, process) &&\n    meets(filter.keys, call.\
key, isScan(call) ? call.a : call.key)\n  );\n}\n\n// Applies the filter, and keeps this call in sight.\nfunction refilter(kept) {\n  shown = calls.\
filter(passes);\n  isShown.fill(0);\n  shownBy = new Map();\n  for (const call of shown) {\n    isShown[call.number] = 1;\n    if (!shownBy.has(call\
.process)) shownBy.set(call.process, []);\n    shownBy.get(call.process).push(call);\n  }\n  lanes = processes.filter(process => shownBy.has(process\
));\n  columns = 0;\n  moments.forEach((number, moment) => {\n    columnAt[moment] = columns;\n    columns += isShown[number];\n  });\n  columnAt[mo\
ments.length] = columns;\n  overviewIsStale = true;\n  sizeStage();\n  if (kept) {\n    clampView();\n    center(kept);\n  } else {\n    fitView();\
\n  }\n  showFilter();\n  draw();\n}\n\n// ---- Geometry ----\n\nconst canvas = $('time');\nconst g = canvas.getContext('2d');\nconst GUTTER = 46;\n\
const AXIS = 24;\nconst STRIP = 20;\n// From this height on, words have room above and below a bar.\nconst TALL = 62;\nconst FONT = \"11px ui-monosp\
ace, 'DejaVu Sans Mono', Menlo, Consolas, monospace\";\nconst view = { left: 0, scale: 1, top: 0 };\nlet width = 0;\nlet height = 0;\nlet density = \
1;\nlet letter = 7;\nlet printing = false;\nlet colour = {};\n\nfunction readColours() {\n  const style = getComputedStyle(document.documentElement)\
;\n  const kinds = KINDS.flatMap(kind => [kind, kind + '-line']);\n  const others = 'bg panel ink soft faint line lane lane-odd bad bad-fill good ma\
rk mark-ink selected match after';\n  for (const name of [...kinds, ...others.split(' ')]) colour[name] = style.getPropertyValue('--' + name).trim()\
;\n  overviewIsStale = true;\n}\n\nconst most = () => (filter.few ? 132 : 104);\nconst plotWidth = () => width - GUTTER;\nconst leastScale = () => M\
ath.min(64, plotWidth() / Math.max(1, columns + 1));\nconst stripHeight = () => (strips.length ? 8 + strips.length * STRIP : 0);\nconst laneRoom = (\
) => height - AXIS - stripHeight();\nconst laneHeight = () => Math.max(15, Math.min(most(), laneRoom() / Math.max(1, lanes.length)));\nconst lanesEn\
d = () => Math.min(height - stripHeight(), AXIS + lanes.length * laneHeight());\nconst laneY = lane => AXIS + lane * laneHeight() - view.top;\ncons\
t laneOf = call => lanes.indexOf(call.process);\nconst columnX = column => GUTTER + (column + 0.5 - view.left) * view.scale;\nconst momentX = momen\
t => columnX(columnAt[moment]);\nconst eventX = event => momentX(momentOf[event]);\nconst stepColumn = place => columnAt[pointOf[order[place].number\
]];\nconst lastColumn = call => (isPending(call) ? Infinity : columnAt[momentOf[call.to]]);\nconst firstColumn = call => columnAt[momentOf[call.from\
]];\n\n// The box of a call's bar.\nfunction barOf(call) {\n  const lane = laneHeight();\n  const x = eventX(call.from);\n  const end = isPending(ca\
ll) ? Math.max(width, x + 30) : eventX(call.to);\n  const top = lane >= TALL ? Math.max(20, lane / 2 - 13) : lane > 30 ? Math.min(12, lane * 0.2) : \
2;\n  const tall = lane >= TALL ? 24 : lane > 30 ? Math.min(26, lane / 2) : lane - 5;\n  return { x, y: laneY(laneOf(call)) + top, width: Math.max(1\
.5, end - x), height: tall };\n}\n\n// The keys whose values are drawn along the order: those filtered, or those in question.\nlet strips = [];\nfun\
ction keysOfStrips() {\n  if (!order.length || (orderIsOfFew && replayFault)) return [];\n  let found = new Set();\n  if (filter.keys) {\n    found \
= new Set(keys.filter(key => meets(filter.keys, key, key)).slice(0, 6));\n  } else {\n    few.filter(it => !isScan(it.call)).forEach(it => found.add\
(it.call.key));\n    origins.forEach(it => found.add(it.key));\n    const differing = front ? front.next.flatMap(it => differingKeys(it.answer, it.w\
ould)) : [];\n    if (differing.length && differing.length < 7) found = new Set(differing);\n  }\n  const list = [...found].sort(compare).slice(0, 6\
);\n  if (!selected || isScan(selected) || list.includes(selected.key)) return list;\n  return [...list.slice(0, 5), selected.key].sort(compare);\n}\
\n// The keys at which two lists of pairs differ.\nfunction differingKeys(one, other) {\n  if (!Array.isArray(one) || !Array.isArray(other)) return \
[];\n  const [a, b] = [new Map(one), new Map(other)];\n  return [...new Set([...a.keys(), ...b.keys()])].filter(key => a.get(key) !== b.get(key)).so\
rt(compare);\n}\n\nfunction clampView() {\n  view.scale = Math.min(160, Math.max(leastScale(), view.scale));\n  view.left = Math.max(-0.5, Math.min(\
view.left, columns + 0.5 - plotWidth() / view.scale));\n  view.top = Math.max(0, Math.min(view.top, lanes.length * laneHeight() - laneRoom()));\n}\n\
// The stage is no taller than what it shows.\nfunction sizeStage() {\n  strips = keysOfStrips();\n  const wanted = AXIS + lanes.length * most() + s\
tripHeight() + 2;\n  $('stage').style.flex = `0 1 ${Math.max(180, Math.ceil(wanted))}px`;\n}\nfunction resize() {\n  density = window.devicePixelRat\
io || 1;\n  const box = $('stage').getBoundingClientRect();\n  const least = Math.max(15, Math.min(most(), 560 / Math.max(1, lanes.length)));\n  wid\
th = printing ? 1040 : Math.max(80, box.width - 2);\n  height = printing ? Math.min(640, AXIS + stripHeight() + lanes.length * least) : Math.max(60\
, box.height - 2);\n  canvas.width = Math.round(width * density);\n  canvas.height = Math.round(height * density);\n  const small = overview.getBoun\
dingClientRect();\n  overview.width = Math.max(1, Math.round(small.width * density));\n  overview.height = Math.max(1, Math.round(small.height * den\
sity));\n  overviewIsStale = true;\n  g.font = FONT;\n  letter = g.measureText('0000000000').width / 10;\n  clampView();\n  draw();\n}\n// All colum\
ns, or of the few calls as many as leave room for their words, up to the wrong response.\nfunction fitView() {\n  let wanted = 0;\n  for (const lis\
t of filter.few ? shownBy.values() : []) {\n    list.forEach((call, i) => {\n      const next = i + 1 < list.length ? firstColumn(list[i + 1]) : col\
umns;\n      const text = Math.max(callWords(call).length, Math.min(14, answerWords(call).length)) + 1;\n      wanted = Math.max(wanted, (text * let\
ter + 6) / Math.max(1, next - firstColumn(call)));\n    });\n  }\n  view.scale = Math.min(110, Math.max(Math.min(64, wanted), plotWidth() / Math.max\
(1, columns + 1)));\n  view.left = wrong && filter.few ? lastColumn(wrong) + 1.5 - plotWidth() / view.scale : -0.5;\n  view.top = 0;\n  clampView();\
\n}\n\n// ---- Painting ----\n\nlet isQueued = false;\nfunction draw() {\n  if (isQueued) return;\n  isQueued = true;\n  requestAnimationFrame(() =\
> {\n    isQueued = false;\n    paint();\n  });\n}\nfunction line(x1, y1, x2, y2, style, thick = 1, dash = []) {\n  g.strokeStyle = style;\n  g.line\
Width = thick;\n  g.setLineDash(dash);\n  g.beginPath();\n  g.moveTo(x1, y1);\n  g.lineTo(x2, y2);\n  g.stroke();\n  g.setLineDash([]);\n}\nfunctio\
n fill(x, y, w, h, style) {\n  g.fillStyle = style;\n  g.fillRect(x, y, w, h);\n}\nfunction write(text, x, y, style, align = 'left') {\n  g.fillStyl\
e = style;\n  g.textAlign = align;\n  g.fillText(text, x, y);\n}\nfunction clip(text, room) {\n  const letters = Math.floor(room / letter);\n  if (t\
ext.length <= letters) return text;\n  return letters < 3 ? '' : text.slice(0, letters - 1) + '…';\n}\n// Labels of arrows, each moved down until i\
t covers none of the others, in boxes with round ends.\nlet labels = [];\nfunction paintLabels() {\n  const placed = [];\n  for (const { text, x, st\
yle, ...it } of labels) {\n    const half = (text.length * letter + 10) / 2;\n    const covers = other => Math.abs(other.x - x) < other.half + half \
+ 2 && Math.abs(other.y - it.y) < 18;\n    while (placed.some(covers)) it.y += 18;\n    placed.push({ x, y: it.y, half });\n    g.fillStyle = colour\
.panel;\n    g.strokeStyle = style;\n    g.lineWidth = 1;\n    g.beginPath();\n    g.roundRect(x - half, it.y - 8, half * 2, 16, 8);\n    g.fill();\
\n    g.stroke();\n    write(text, x, it.y + 0.5, style, 'center');\n  }\n  labels = [];\n}\nfunction within(x, y, w, h, paintPart) {\n  g.save();\
\n  g.beginPath();\n  g.rect(x, y, w, h);\n  g.clip();\n  paintPart();\n  g.restore();\n}\n\nfunction paint() {\n  paintOverview();\n  g.setTransfor\
m(density, 0, 0, density, 0, 0);\n  g.font = FONT;\n  g.textBaseline = 'middle';\n  fill(0, 0, width, height, colour.panel);\n  const end = lanesEnd\
();\n  const wrongX = wrong ? eventX(wrong.to) : 0;\n  within(0, AXIS, width, end - AXIS, () => {\n    lanes.forEach((process, lane) => {\n      fil\
l(0, laneY(lane), width, laneHeight(), lane % 2 ? colour['lane-odd'] : colour.lane);\n    });\n    if (wrong) fill(wrongX, AXIS, Math.max(0, width \
- wrongX), end - AXIS, colour.after);\n  });\n  within(GUTTER, AXIS, plotWidth(), end - AXIS, () => {\n    paintBars(end);\n    paintPoints();\n    \
paintArrows();\n    paintLabels();\n    if (wrong) line(wrongX, AXIS, wrongX, end, colour.bad, 1.5, [5, 3]);\n  });\n  paintStrips(end);\n  paintAxi\
s();\n  within(0, AXIS, GUTTER, end - AXIS, () => {\n    lanes.forEach((process, lane) => {\n      const bar = barOf(shownBy.get(process)[0]);\
\n      fill(0, laneY(lane), GUTTER, laneHeight(), lane % 2 ? colour['lane-odd'] : colour.lane);\n      write('p' + process, 8, bar.y + bar.height \
/ 2, colour.soft);\n    });\n  });\n}\n\n// The first call of a lane's list that ends at a column or later.\nconst firstFrom = (list, column) => las\
tUpTo(list, column, call => lastColumn(call) + 1e-9) + 1;\nfunction paintBars(end) {\n  const right = view.left + plotWidth() / view.scale + 1;\n  c\
onst marked = [];\n  lanes.forEach((process, lane) => {\n    if (laneY(lane) > end || laneY(lane) + laneHeight() < AXIS) return;\n    const list = s\
hownBy.get(process);\n    for (let i = firstFrom(list, view.left - 1); i < list.length; i++) {\n      const call = list[i];\n      if (firstColumn(c\
all) > right) break;\n      const next = i + 1 < list.length ? eventX(list[i + 1].from) : width;\n      const isMarked = explaining.has(call) || cal\
l === selected || call === hovered || matchSet.has(call);\n      if (isMarked) marked.push([call, next]);\n      else paintBar(call, next, false);\
\n    }\n  });\n  for (const [call, next] of marked) paintBar(call, next, true);\n}\nfunction barLine(call) {\n  if (call === selected) return colou\
r.selected;\n  if (call === wrong) return colour.bad;\n  if (matchSet.has(call)) return colour.match;\n  return fewOf.has(call) ? colour.ink : colou\
r[call.kind + '-line'];\n}\nfunction paintBar(call, next, isMarked) {\n  const bar = barOf(call);\n  if (!isMarked && (view.scale < 1.2 || bar.widt\
h < 5)) {\n    g.globalAlpha = 0.75;\n    fill(bar.x, bar.y, bar.width, bar.height, colour[call.kind + '-line']);\n    g.globalAlpha = 1;\n    retur\
n;\n  }\n  // No path goes far outside of the canvas.\n  const x = Math.max(bar.x, GUTTER - 6);\n  const wide = Math.min(bar.x + Math.max(3, bar.wid\
th), width + 6) - x;\n  const isDashed = isMarked && !fewOf.has(call) && explaining.has(call) && call !== wrong && call !== selected;\n  const outli\
ne = () => {\n    g.beginPath();\n    if (wide > 8) g.roundRect(x, bar.y, wide, bar.height, 3);\n    else g.rect(x, bar.y, wide, bar.height);\n  };\
\n  g.fillStyle = call === wrong ? colour['bad-fill'] : colour[call.kind];\n  outline();\n  g.fill();\n  if (call === wrong && wide > 6) paintStripe\
s(x, bar.y, wide, bar.height);\n  outline();\n  g.strokeStyle = barLine(call);\n  g.lineWidth = isDashed ? 1.5 : isMarked ? 2.4 : 1;\n  g.setLineDas\
h(isDashed ? [4, 2.5] : []);\n  g.stroke();\n  g.setLineDash([]);\n  paintWords(call, bar, next);\n}\nfunction paintStripes(x, y, wide, tall) {\n  w\
ithin(x, y, wide, tall, () => {\n    g.globalAlpha = 0.3;\n    for (let at = x - tall; at < x + wide; at += 9) line(at, y + tall, at + tall, y, colo\
ur.bad, 3);\n    g.globalAlpha = 1;\n  });\n}\nfunction paintWords(call, bar, next) {\n  const from = Math.max(bar.x, GUTTER);\n  const end = Math.m\
in(bar.x + bar.width, width);\n  const room = end - from - 8;\n  const after = Math.min(next, width) - from - 6;\n  const middle = bar.y + bar.heigh\
t / 2 + 0.5;\n  const style = call === wrong ? colour.bad : colour.ink;\n  const pale = call === wrong ? colour.bad : colour.soft;\n  const number \
= String(call.number);\n  const numberRoom = letter * number.length;\n  if (laneHeight() >= TALL) {\n    if (after > letter * 4) {\n      const it \
= fewOf.get(call);\n      const answerStyle = it && isLeftOut(it) ? colour.faint : pale;\n      write(clip(callWords(call), after), from + 1, bar.y \
- 8, style);\n      if (!isPending(call)) write(clip(say(call.answer).slice(0, 200), after), from + 1, bar.y + bar.height + 9, answerStyle);\n    }\
\n    const pointX = call.place < 0 ? -1e9 : momentX(pointOf[call.number]);\n    const isFree = Math.abs(pointX - from - 4 - numberRoom / 2) > numbe\
rRoom / 2 + 10;\n    if (room > numberRoom - 2 && isFree) write(number, from + 4, middle, pale);\n    return;\n  }\n  if (bar.height < 9) return;\
\n  const outside = Math.min(next, width) - end;\n  if (room < letter * 14 && outside > Math.max(room, letter * 6)) {\n    write(clip(words(call, 90\
), outside - 8), end + 4, middle, pale);\n  } else if (room > letter * 3) {\n    const all = words(call, 90);\n    const hasNumber = room > numberRo\
om + letter * (1 + Math.min(all.length, 8));\n    const shift = hasNumber ? numberRoom + letter : 0;\n    if (hasNumber) write(number, from + 4, mid\
dle, pale);\n    write(clip(all, room - shift), from + 4 + shift, middle, style);\n  }\n}\n\n// The places of the order, joined.\nfunction paintPoin\
ts() {\n  if (!order.length || view.scale < 0.35) return;\n  const lane = laneHeight();\n  const hasNumbers = order.length < 1000;\n  const radius \
= Math.min(hasNumbers ? 8.5 : 5.5, Math.max(1.2, Math.min(view.scale * 0.4, lane * 0.2)));\n  const right = view.left + plotWidth() / view.scale + 3\
;\n  const dots = [];\n  for (let place = firstPlace(view.left - 3); place < order.length; place++) {\n    const call = order[place];\n    if (!isSh\
own[call.number]) continue;\n    const bar = barOf(call);\n    const y = bar.y + (lane >= TALL || lane <= 30 ? bar.height / 2 : bar.height);\n    do\
ts.push({ place, x: columnX(stepColumn(place)), y });\n    if (stepColumn(place) > right) break;\n  }\n  g.globalAlpha = 0.3;\n  dots.slice(1).forEa\
ch((dot, i) => {\n    const dash = dot.place === dots[i].place + 1 ? [] : [2, 3];\n    if (view.scale > 7) line(dots[i].x, dots[i].y, dot.x, dot.y, \
colour.mark, 1, dash);\n  });\n  for (const { place, x, y } of dots) paintPoint(place, x, y, radius, hasNumbers);\n  const x = stepX();\n  if (x > G\
UTTER) line(x, AXIS, x, lanesEnd(), colour.mark);\n}\nfunction paintPoint(place, x, y, radius, hasNumbers) {\n  g.globalAlpha = place < step ? 1 : 0\
.28;\n  g.fillStyle = colour.mark;\n  g.strokeStyle = colour.panel;\n  g.lineWidth = 1;\n  g.beginPath();\n  g.arc(x, y, radius, 0, 7);\n  g.fill();\
\n  if (radius > 3) g.stroke();\n  if (hasNumbers && radius > 7) {\n    g.font = FONT.replace('11', place > 99 ? '7.5' : '8.5');\n    write(String(p\
lace + 1), x, y + 0.5, colour['mark-ink'], 'center');\n    g.font = FONT;\n  }\n  g.globalAlpha = 1;\n  if (place !== step - 1 || radius <= 2) retur\
n;\n  g.strokeStyle = colour.selected;\n  g.lineWidth = 2;\n  g.beginPath();\n  g.arc(x, y, radius + 2, 0, 7);\n  g.stroke();\n}\nconst stepX = () =\
> (step ? columnX(stepColumn(step - 1)) + Math.min(11, view.scale * 0.45) : columnX(0) - 4);\nconst places = order.map((call, place) => place);\ncon\
st firstPlace = column => Math.max(0, lastUpTo(places, column, stepColumn));\n\nfunction paintArrows() {\n  const done = new Set();\n  const go = (f\
rom, to, style, isDashed, text) => {\n    const name = `${from.number} ${to.number}`;\n    if (done.has(name) || from === to || !isShown[from.number\
] || !isShown[to.number]) return;\n    done.add(name);\n    paintArrow(from, to, style, isDashed, text);\n  };\n  const sources = (call, count, know\
n) => {\n    const pairs = reported(call);\n    for (const [key, value] of pairs) {\n      const text = pairs.length < count ? 'reads ' + value : ''\
;\n      for (const writer of writers(key, value)) if (known(writer)) go(writer, call, colour.good, false, text);\n    }\n  };\n  for (const it of f\
ew) {\n    for (const missed of it.misses) go(missed, it.call, colour.bad, true, 'missed');\n    if (filter.few && !isLeftOut(it) && !isOpen(it)) so\
urces(it.call, 3, writer => explaining.has(writer));\n  }\n  if (!selected) return;\n  const end = isPending(selected) ? events.length : selected.to\
;\n  sources(selected, 4, writer => writer.from <= end);\n  if (written(selected) === undefined) return;\n  for (const reader of readers(selected.ke\
y, written(selected)).slice(0, 60)) go(selected, reader, colour.good, false, '');\n}\nfunction paintArrow(from, to, style, isDashed, text) {\n  cons\
t a = barOf(from);\n  const b = barOf(to);\n  const gap = laneHeight() >= TALL ? 14 : 0;\n  const isSame = Math.abs(a.y - b.y) < 2;\n  // In one lan\
e an arrow to who reads goes above the bars, and one to who misses below them.\n  const comesFromAbove = isSame ? !isDashed : b.y > a.y;\n  const si\
gn = comesFromAbove ? -1 : 1;\n  const aEnd = Math.min(a.x + a.width, Math.max(a.x + 20, width));\n  const bEnd = Math.min(b.x + b.width, Math.max(b\
.x + 20, width));\n  const x1 = Math.min(aEnd, Math.max(a.x, b.x - 14));\n  const y1 = comesFromAbove !== isSame ? a.y + a.height + gap : a.y - gap;\
\n  const x2 = Math.max(b.x + Math.min(14, (bEnd - b.x) / 2), Math.min(x1, bEnd));\n  const y2 = comesFromAbove ? b.y - gap : b.y + b.height + gap;\
\n  const middle = isSame ? y1 + sign * 24 : (y1 + y2) / 2;\n  const bend = isSame ? 6 : Math.max(10, Math.min(60, Math.abs(x2 - x1) / 3)) / 2;\n  g\
.strokeStyle = g.fillStyle = style;\n  g.lineWidth = 1.8;\n  g.setLineDash(isDashed ? [6, 4] : []);\n  g.beginPath();\n  g.moveTo(x1, y1);\n  g.bezi\
erCurveTo(x1 + bend, middle, x2 - bend, middle, x2, y2 + sign * 6);\n  g.stroke();\n  g.setLineDash([]);\n  g.beginPath();\n  g.moveTo(x2, y2);\n  g\
.lineTo(x2 - 4.5, y2 + sign * 8);\n  g.lineTo(x2 + 4.5, y2 + sign * 8);\n  g.fill();\n  if (x1 < GUTTER - 4 && x2 > GUTTER + 90 && x2 < width) {\
\n    // The other end is out of sight, so the arrow names it.\n    const name = clip(`◂ ${isDashed ? 'missed' : 'reads'} ${callWords(from)}`, Math.\
min(300, x2 - GUTTER - 16));\n    labels.push({ text: name, x: x2 - 17 - (name.length * letter) / 2, y: y2 + sign * 12, style });\n  } else if (tex\
t && text.length * letter < 250 && Math.abs(x2 - x1) + Math.abs(y2 - y1) > 30) {\n    labels.push({ text, x: (x1 + x2) / 2, y: Math.max(AXIS + 10, i\
sSame ? y1 + sign * 18 : middle), style });\n  }\n}\n\n// What each key in question holds along the order.\nlet stripHits = [];\nfunction paintStrip\
s(top) {\n  stripHits = [];\n  if (!strips.length) return;\n  fill(0, top, width, stripHeight(), colour.bg);\n  line(0, top + 0.5, width, top + 0.5\
, colour.line);\n  const end = columnX(stepColumn(order.length - 1)) + view.scale / 2;\n  strips.forEach((key, i) => {\n    const y = top + 6 + i * \
STRIP;\n    write(clip('k' + key, GUTTER - 8), 8, y + 9, colour.soft);\n    within(GUTTER, y, plotWidth(), 18, () => paintStrip(key, y, end));\n  })\
;\n  if (stepX() > GUTTER) line(stepX(), top, stepX(), top + stripHeight(), colour.mark);\n}\nfunction paintStrip(key, y, end) {\n  const life = liv\
es.get(key) || [];\n  const now = lifeAt(key, step);\n  life.forEach((it, i) => {\n    const x1 = it.step ? columnX(stepColumn(it.step - 1)) : GUTTE\
R - 2;\n    const x2 = i + 1 < life.length ? columnX(stepColumn(life[i + 1].step - 1)) : end;\n    if (it.value === null || x2 < GUTTER || x1 > widt\
h) return;\n    const x = Math.max(GUTTER - 2, x1);\n    const wide = Math.min(width + 2, x2) - x;\n    fill(x, y + 1, wide, 15, colour.insert);\
\n    g.strokeStyle = colour['insert-line'];\n    g.lineWidth = it === now ? 2 : 0.7;\n    if (wide > 3) g.strokeRect(x, y + 1, wide, 15);\n    if (\
wide > letter * 2 + 6) write(clip(it.value, wide - 6), Math.max(x, GUTTER) + 4, y + 9, colour.ink);\n    stripHits.push({ x1, x2, y, key, life: it }\
);\n  });\n}\n\nfunction paintAxis() {\n  fill(0, 0, width, AXIS, colour.bg);\n  line(0, AXIS - 0.5, width, AXIS - 0.5, colour.line);\n  write('even\
t', 6, AXIS / 2, colour.soft);\n  const wrongX = wrong ? eventX(wrong.to) : -1e9;\n  const hasFlag = wrongX > GUTTER - 40 && wrongX < width + 40;\
\n  const text = wrong ? `event ${wrong.to}: goes wrong` : '';\n  const wide = text.length * letter + 12;\n  const flagX = Math.max(GUTTER, Math.min\
(width - wide, wrongX - wide / 2));\n  const room = letter * (String(events.length).length + 2);\n  let free = GUTTER + 14;\n  for (let event = firs\
tEvent(view.left - 1); event < events.length; event++) {\n    if (!isShown[callAt[event]]) continue;\n    const x = eventX(event);\n    if (x > widt\
h - 10) break;\n    if (x < free || (hasFlag && x > flagX - room / 2 - 4 && x < flagX + wide + room / 2)) continue;\n    write(String(event), x, AXI\
S / 2, colour.soft, 'center');\n    line(x, AXIS - 5, x, AXIS, colour.line);\n    free = x + room;\n  }\n  if (!hasFlag) return;\n  g.fillStyle = co\
lour.bad;\n  g.beginPath();\n  g.roundRect(flagX, 3, wide, 17, 4);\n  g.fill();\n  write(text, flagX + 6, 12, colour.panel);\n}\nconst allEvents = e\
vents.map((event, place) => place);\nconst firstEvent = column => Math.max(0, lastUpTo(allEvents, column, event => columnAt[momentOf[event]]));\n\n/\
/ ---- The overview of all that is shown, kept as an image ----\n\nconst overview = $('overview');\nconst small = overview.getContext('2d');\nconst \
overviewImage = document.createElement('canvas');\nlet overviewIsStale = true;\nconst overviewX = moment => (columnAt[moment] / Math.max(1, columns)\
) * overview.width;\n\nfunction makeOverview() {\n  overviewImage.width = overview.width;\n  overviewImage.height = overview.height;\n  const image \
= overviewImage.getContext('2d');\n  const margin = 6 * density;\n  const lane = (overview.height - 2 * margin) / Math.max(1, lanes.length);\n  cons\
t box = (x, y, w, h, style) => {\n    image.fillStyle = style;\n    image.fillRect(x, y, w, h);\n  };\n  box(0, 0, overview.width, overview.height, \
colour.panel);\n  image.globalAlpha = 0.75;\n  for (const call of shown) {\n    const x = overviewX(momentOf[call.from]);\n    const end = isPending\
(call) ? overview.width : overviewX(momentOf[call.to]);\n    const y = margin + laneOf(call) * lane;\n    box(x, y, Math.max(0.8, end - x), Math.max\
(1, lane - 1), colour[call.kind + '-line']);\n  }\n  image.globalAlpha = 1;\n  for (const call of shown) {\n    const x = overviewX(momentOf[call.fr\
om]) - density * 0.75;\n    const tick = margin - density;\n    if (matchSet.has(call)) box(x, 0, 1.5 * density, tick, colour.match);\n    else if (\
fewOf.has(call)) box(x, overview.height - margin, 1.5 * density, tick, colour.ink);\n  }\n  if (wrong) box(overviewX(momentOf[wrong.to]) - density, \
0, 2 * density, overview.height, colour.bad);\n}\nfunction paintOverview() {\n  if (overviewIsStale) makeOverview();\n  overviewIsStale = false;\n  \
small.drawImage(overviewImage, 0, 0);\n  const a = Math.max(0, ((view.left + 0.5) / Math.max(1, columns)) * overview.width);\n  const shownPart = pl\
otWidth() / view.scale / Math.max(1, columns);\n  const b = Math.min(overview.width, a + Math.max(3 * density, shownPart * overview.width));\n  smal\
l.fillStyle = colour.after;\n  small.fillRect(0, 0, a, overview.height);\n  small.fillRect(b, 0, overview.width, overview.height);\n  small.strokeSt\
yle = colour.selected;\n  small.lineWidth = 1.5 * density;\n  small.strokeRect(Math.max(density, a), density, b - Math.max(density, a) - density, ov\
erview.height - 2 * density);\n  if (!order.length) return;\n  const x = overviewX(step ? pointOf[order[step - 1].number] : 0);\n  small.fillStyle \
= colour.mark;\n  small.fillRect(x - density / 2, 0, density, overview.height);\n}\n\n// ---- Moving the view ----\n\nfunction moveView(left, scale\
, top = view.top) {\n  Object.assign(view, { left, scale, top });\n  clampView();\n  draw();\n}\nfunction zoom(factor, x = width / 2) {\n  const col\
umn = view.left + (x - GUTTER) / view.scale;\n  const scale = Math.min(160, Math.max(leastScale(), view.scale * factor));\n  moveView(column - (x - \
GUTTER) / scale, scale);\n}\n// Moves no further than to bring a call into sight.\nfunction center(call) {\n  if (!isShown[call.number]) return;\n  \
const room = plotWidth() / view.scale;\n  const a = firstColumn(call);\n  const b = isPending(call) ? a + 2 : lastColumn(call);\n  const y = laneOf(\
call) * laneHeight();\n  let { left, top } = view;\n  if (a < left + 1 || Math.min(b, a + room) > left + room - 1) {\n    const middle = b - a <= ro\
om ? (a + b) / 2 : call.place >= 0 ? stepColumn(call.place) : a + room / 2;\n    left = middle - room / 2;\n  }\n  if (y < top || y + laneHeight() \
> top + laneRoom()) top = y - laneRoom() / 2;\n  moveView(left, view.scale, top);\n}\n// Moves to a call, at a scale at which words have room.\nfunc\
tion focusOn(call) {\n  if (!isShown[call.number]) return;\n  const scale = Math.max(leastScale(), 26);\n  const a = firstColumn(call);\n  const b \
= isPending(call) ? a + 2 : lastColumn(call);\n  const room = plotWidth() / scale;\n  moveView((Math.max(a, b - room * 0.8) + b - room) / 2, scale, \
laneOf(call) * laneHeight() - laneRoom() / 2);\n}\n\n// The call at a point of the canvas, and what a strip holds there.\nfunction callAtPoint(x, y\
) {\n  const lane = Math.floor((y - AXIS + view.top) / laneHeight());\n  if (y < AXIS || y > lanesEnd() || x < GUTTER || lane < 0 || lane >= lanes.l\
ength) return null;\n  const list = shownBy.get(lanes[lane]);\n  const column = view.left + (x - GUTTER) / view.scale - 0.5;\n  let least = 4 / view\
.scale;\n  let found = null;\n  for (let i = firstFrom(list, column - least - 1); i < list.length && firstColumn(list[i]) <= column + least; i++) {\
\n    const far = Math.max(0, firstColumn(list[i]) - column, column - lastColumn(list[i]));\n    if (far > least) continue;\n    least = far;\n    f\
ound = list[i];\n  }\n  return found;\n}\nconst stripAtPoint = (x, y) => stripHits.find(it => x >= it.x1 && x < it.x2 && y >= it.y && y < it.y + 18)\
;\n\n// ---- The panels: every text reaches the page as text ----\n\n// Makes an element. Attributes that begin with \"on\" are listeners; what it c\
ontains may be nested lists.\nfunction el(tag, attributes, ...content) {\n  const made = document.createElement(tag);\n  for (const [name, value] o\
f Object.entries(attributes || {})) {\n    if (name.startsWith('on')) made.addEventListener(name.slice(2), value);\n    else made.setAttribute(name\
, value);\n  }\n  made.append(...content.flat(9).filter(it => it !== null && it !== undefined && it !== ''));\n  return made;\n}\nconst mono = (text\
, style = '') => el('span', { class: `mono ${style}` }, text);\nconst soft = text => el('span', { class: 'soft' }, text);\nconst bold = (text, style\
) => el('b', { class: `mono ${style}` }, text);\nconst button = (text, onclick, more = {}) => el('button', { onclick, ...more }, text);\nconst isBa\
d = text => el('b', { class: 'bad' }, text);\n\nfunction callButton(call, text = callWords(call)) {\n  const title = `call ${call.number} of proces\
s ${call.process}, ${spanWords(call)}`;\n  return button(text, () => select(call), { class: 'link mono', title });\n}\nconst named = call => [callBu\
tton(call), soft(` call ${call.number}, p${call.process}`)];\nfunction namedList(list, count = 6) {\n  const parts = list.slice(0, count).map((call\
, i) => [i ? ', ' : '', named(call)]);\n  return [parts, list.length > count ? ` and ${list.length - count} more` : ''];\n}\nfunction table(heads, r\
ows) {\n  return el('table', {}, el('tr', {}, heads.map(head => el('th', {}, head))), rows);\n}\n// Two lists of pairs, at the keys at which they di\
ffer.\nfunction differences(got, would, heads) {\n  const [a, b] = [new Map(got), new Map(would)];\n  const cell = text => el('td', { class: 'mono' \
}, text);\n  const row = key => el('tr', { class: 'differs' }, cell(key), cell(say(a.get(key))), cell(say(b.get(key))));\n  return table(['key', ...\
heads], differingKeys(got, would).slice(0, 200).map(row));\n}\n\n// ---- Why ----\n\nfunction renderWhy() {\n  const sections = [whyYes(), whyUndeci\
ded(), whyWrong(), whyFew(), whyFront(), whyOrigins(), whyOrder()];\n  $('tab-why').replaceChildren(...sections.flat(9).filter(Boolean));\n}\nfuncti\
on whyYes() {\n  if (shownVerdict !== 'yes' || !order.length) return [];\n  const pending = order.length < calls.length ? ' The others are pending a\
nd left out.' : '';\n  const thin = overlap < 0.1 ? ' Of calls that hardly overlap, a yes says little.' : '';\n  return [\n    el('h2', {}, 'It is l\
inearizable'),\n    el('p', {}, `One order explains every response. It has ${order.length} of the ${many(calls.length, 'call')}.${pending}`),\n    e\
l('p', {}, 'Each circle is the place of a call in that order. Step through it below the timeline: Map shows what the map then holds.'),\n    el('p'\
, { class: thin ? 'bad' : 'soft' }, `As a call began, ${overlap} others were open, on average.${thin}`),\n  ];\n}\nfunction whyUndecided() {\n  if (\
verdict !== 'undecided') return [];\n  let other = `The other search, of locate, says ${locatedVerdict}.`;\n  if (locatedVerdict === 'yes') other +\
= order.length ? ' The history is linearizable.' : ' It reports no order.';\n  if (locatedVerdict === 'undecided') other += ` It ended at event ${lo\
cated.event}, the response of call ${located.call}.`;\n  return [\n    el('h2', {}, 'judge is undecided'),\n    el('p', {}, `The search of the call\
s at ${segmentWords} met more states than its budget. `, other),\n  ];\n}\nfunction whyWrong() {\n  if (!wrong) return [];\n  const next = front && \
front.next.length === 1 && front.next[0].call === wrong ? front.next[0] : null;\n  return [\n    el('h2', {}, 'Where it goes wrong'),\n    el(\
\n      'p',\n      {},\n      `The events before event ${wrong.to} have a linearization. With it they have none, whatever follows. `,\n      'It i\
s the response of ',\n      named(wrong),\n      ': ',\n      mono(say(wrong.answer).slice(0, 300)),\n      '.',\n    ),\n    next ? whyNext(next) \
: null,\n    el('p', { class: 'noprint' }, button('Show it among all calls', showFault)),\n  ];\n}\n// What the map would answer, in one sentence.\n\
function whyNext({ answer, would }) {\n  const keysThat = differingKeys(answer, would);\n  if (!keysThat.length) {\n    if (say(answer) === say(woul\
d)) return null;\n    const parts = [bold(say(would).slice(0, 200), 'good'), ', not ', bold(say(answer).slice(0, 200), 'bad'), '.'];\n    return el(\
'p', {}, 'After the calls below, the map would answer ', parts);\n  }\n  const [got, wanted] = [new Map(answer), new Map(would)];\n  const parts = k\
eysThat.slice(0, 3).map((key, i) => {\n    const comma = i ? ', ' : '';\n    return [comma, bold(say(wanted.get(key)), 'good'), ' at key ', mono(key\
), ', not ', bold(say(got.get(key)), 'bad')];\n  });\n  const rest = keysThat.length > 3 ? `, and differ at ${keysThat.length - 3} more keys` : '';\
\n  return el('p', {}, 'After the calls below, the map would report ', parts, rest, '.');\n}\nfunction whyFew() {\n  if (!few.length) return [];\n  \
const title = few.length === 1 ? 'This call has no order on its own' : `These ${few.length} calls have no order on their own`;\n  const isLeast = fe\
w.length > 1 && few.every(it => it.reason === 'order');\n  const least = isLeast ? 'Without any one of them, the others have an order. ' : '';\n  co\
nst grey = few.some(isLeftOut) ? 'Responses in grey are not needed to show it.' : '';\n  return [\n    el('h2', {}, title),\n    beginWords(),\n    \
el('ol', { class: 'few' }, few.map(fewItem)),\n    least + grey && el('p', { class: 'soft' }, least + grey),\n  ];\n}\n// The values from which the \
few calls begin, and who wrote them.\nfunction beginWords(count = 12) {\n  const part = ({ key, value, writer }) => [`key ${key} has `, mono(say(val\
ue)), writer ? [', written by ', named(writer)] : ''];\n  if (fewBegin.length < 2) return fewBegin.map(it => el('p', {}, 'They begin where ', part(i\
t), '.'));\n  const rest = fewBegin.length > count ? el('li', {}, `${fewBegin.length - count} more.`) : '';\n  return [el('p', {}, 'They begin where\
:'), el('ul', {}, fewBegin.slice(0, count).map(it => el('li', {}, part(it), '.')), rest)];\n}\nconst REASONS = {\n  spent: 'Kept, since without it t\
he search is beyond its budget.',\n  held: 'Kept, since a replace without a response waits for a value that this may have written.',\n};\nfunction f\
ewItem(it) {\n  const { call } = it;\n  const answer = isLeftOut(it) ? say(call.answer).slice(0, 60) : say(it.answer).slice(0, 400);\n  return el(\
\n    'li',\n    { class: call === wrong ? 'wrong' : '', 'data-call': call.number },\n    callButton(call),\n    isOpen(it) ? '' : mono(': ' + answe\
r, isLeftOut(it) ? 'faint' : ''),\n    soft(` call ${call.number}, p${call.process}`),\n    isOpen(it) ? el('div', { class: 'soft' }, 'It has no res\
ponse.') : '',\n    it.misses.map(missed => {\n      const over = `, which was over at event ${missed.to}, before this began at ${call.from}.`;\
\n      return el('div', { class: 'bad' }, 'misses ', named(missed), over);\n    }),\n    REASONS[it.reason] ? el('div', { class: 'soft' }, REASONS[\
it.reason]) : '',\n  );\n}\nfunction whyFront() {\n  if (!front) return [];\n  const steps = front.calls.map((call, i) => [i ? ', ' : '', `${i + 1}\
. `, callButton(call)]);\n  const holds = front.holds.length ? mono(say(front.holds).slice(0, 600)) : 'nothing';\n  const next = front.next.length \
> 1 ? 'What could come next:' : 'Only this could come next:';\n  return [\n    el('h2', {}, 'How far an order of them gets'),\n    el('p', {}, steps\
.length ? steps : 'Not one of them can come first.'),\n    el('p', {}, 'The map then holds ', holds, '. ', next),\n    front.next.map(nextItem),\n  \
];\n}\nfunction nextItem({ call, answer, would }) {\n  const isFitting = say(answer) === say(would) || (answer instanceof Word && answer.text === 'o\
pen');\n  if (isFitting) return el('p', {}, callButton(call), ': it fits here. The search ended before it, with its budget spent.');\n  if (differin\
gKeys(answer, would).length) {\n    return [el('p', {}, callButton(call), ', but it differs:'), differences(answer, would, ['it answered', 'the map \
would'])];\n  }\n  const parts = [': it answered ', bold(say(answer), 'bad'), ', the map would answer ', bold(say(would), 'good'), '.'];\n  return e\
l('p', {}, callButton(call), parts);\n}\nfunction whyOrigins() {\n  if (!origins.length) return [];\n  const nobody = 'no call that was recorded. A \
starting pair was forgotten, a thread was not recorded, or the map makes up values';\n  const rows = origins.map(({ key, value, start, puts }) => {\
\n    const from = [puts.length ? namedList(puts) : '', puts.length && start ? ', and ' : '', start ? 'the start' : ''];\n    return el('p', {}, mon\
o(value), ' at key ', mono(key), ': ', puts.length || start ? from : isBad(nobody), '.');\n  });\n  return [el('h2', {}, 'Who wrote what they read')\
, rows];\n}\nfunction whyOrder() {\n  const sections = [];\n  if (shownVerdict !== 'yes' && order.length) {\n    const whose = orderIsOfFew\n      \
? 'The circles are the longest order of these few calls that the search met.'\n      : `The circles are one linearization of the events before even\
t ${orderedTo}. Their numbers are places in it, from 1, not numbers of calls. There may be others.`;\n    sections.push(el('h2', {}, 'The circles')\
, el('p', {}, whose, ' Step through it below the timeline: Map shows what the map then holds.'));\n  }\n  if (judged.calls && judged.calls.length < \
calls.length) {\n    const count = many(judged.calls.length, 'call');\n    sections.push(el('p', { class: 'soft' }, `judge names the ${count} at ${s\
egmentWords}. No scan joins them to others, so they are judged apart.`));\n  }\n  if (replayFault) {\n    sections.push(el('p', { class: 'bad' }, `T\
his page replays the order otherwise than the program: ${replayFault}. Believe the program, and report it.`));\n  }\n  return sections;\n}\n\n// ---\
- Map: what it holds at a step of the order ----\n\nfunction renderMap() {\n  if (!order.length || (orderIsOfFew && replayFault)) {\n    $('tab-map'\
).replaceChildren(el('p', { class: 'soft' }, 'No order is known, so this page cannot say what the map held.'));\n    return;\n  }\n  const call = st\
ep ? order[step - 1] : null;\n  const where = call\n    ? [`After ${step} of ${many(order.length, 'call')}. The last of them is `, named(call), ': '\
, mono(answerWords(call).slice(0, 100)), '.']\n    : 'Before the first call.';\n  const whose = orderIsOfFew ? el('p', { class: 'soft' }, 'These ar\
e the few calls of Why, not all calls.') : '';\n  const rows = keys.filter(key => meets(filter.few ? null : filter.keys, key, key)).map(key => mapRo\
w(key, call));\n  const held = rows.filter(row => row.isHeld).length;\n  const kept = rows.filter(row => row.isHeld || row.isTouched || rows.length \
<= 40);\n  const shownRows = kept.filter((row, i) => i < 250 || row.isTouched).map(row => row.element);\n  const more = kept.length > 250 ? el('p', \
{ class: 'soft' }, 'The first 250 keys are shown. Filter keys to see others.') : '';\n  $('tab-map').replaceChildren(\n    el('p', {}, where),\n    \
whose,\n    ...mapAtEnd(),\n    el('h2', {}, `The map: ${many(held, 'key')}`),\n    table(['key', 'value', 'written by'], shownRows),\n    more,\n  \
);\n}\nfunction mapRow(key, call) {\n  const life = lifeAt(key, step);\n  const isHeld = Boolean(life && life.value !== null);\n  const isTouched = \
Boolean((life && step && life.step === step) || (call && !isScan(call) && call.key === key));\n  const writer = life && life.call ? [callButton(life\
.call, `call ${life.call.number}`), soft(` p${life.call.process}`)] : soft(life ? 'start' : '');\n  const cells = [mono(key), isHeld ? mono(life.val\
ue) : soft('none'), writer].map(it => el('td', {}, it));\n  return { isHeld, isTouched, element: el('tr', isTouched ? { class: 'touched' } : {}, cel\
ls) };\n}\nfunction mapAtEnd() {\n  if (step !== order.length || !wrong) return [];\n  const would = wouldAnswer(wrong, key => holdsAt(key, step));\
\n  const isList = differingKeys(wrong.answer, would).length > 0;\n  const parts = ['It answered ', bold(say(wrong.answer), 'bad'), '. At this end o\
f this order, the map would answer ', bold(say(would), ''), '.'];\n  return [\n    el('h2', {}, 'The call that goes wrong'),\n    el('p', {}, named(\
wrong)),\n    isList ? differences(wrong.answer, would, ['it answered', 'the map here']) : el('p', {}, parts),\n    orderIsOfFew ? '' : el('p', { cl\
ass: 'soft' }, 'Other orders of the same events may end with another map. None of them answers so.'),\n  ];\n}\n\n// ---- The selected call ----\n\n\
function renderCard() {\n  const card = $('card');\n  card.hidden = !selected;\n  if (!selected) return;\n  const call = selected;\n  const role = c\
all === wrong ? el('span', { class: 'bad' }, 'goes wrong here') : fewOf.has(call) ? 'explains the verdict' : '';\n  const rows = cardRows(call).filt\
er(row => row[1] !== null);\n  card.replaceChildren(\n    el(\n      'div',\n      { class: 'bar' },\n      el('h2', {}, `Call ${call.number}`),\
\n      role,\n      el('span', { class: 'gap' }),\n      button('← key', () => near(-1), { 'aria-label': 'The call before on this key', title: 'Th\
e call before on this key' }),\n      button('key →', () => near(1), { 'aria-label': 'The next call on this key', title: 'The next call on this key\
' }),\n      button('×', () => select(null), { 'aria-label': 'Close' }),\n    ),\n    el('dl', {}, rows.map(([name, ...content]) => [el('dt', {}, na\
me), el('dd', {}, content)])),\n    pairsTable(call, 120),\n  );\n  card.scrollTop = 0;\n}\nfunction cardRows(call) {\n  const it = fewOf.get(call);\
\n  const value = written(call);\n  const end = isPending(call) ? events.length : call.to;\n  const others = calls.filter(c => c !== call && c.from \
<= end && (isPending(c) || c.to > call.from));\n  const pairs = Array.isArray(call.answer) && call.answer.length > 3;\n  const answer = isPending(ca\
ll) ? 'pending: it has no response' : pairs ? many(call.answer.length, 'pair') : mono(say(call.answer));\n  const jump = () => {\n    setStep(call.p\
lace + 1);\n    pick('map');\n  };\n  const read = reported(call);\n  return [\n    ['call', mono(callWords(call))],\n    ['response', answer],\
\n    ['process', String(call.process)],\n    ['events', isPending(call) ? `${call.from} on` : `${call.from} to ${call.to}`],\n    ['place', call.pl\
ace < 0 ? null : [`${call.place + 1} of ${order.length} `, button('the map then', jump, { class: 'link' })]],\n    ['read by', value === undefined \
? null : namesOrNobody(readers(call.key, value), call)],\n    ['written by', isScan(call) || !read.length ? null : sourceOf(read[0][0], read[0][1], \
call)],\n    ...(it ? it.misses : []).map(missed => ['misses', named(missed)]),\n    ...few.filter(other => other.misses.includes(call)).map(other =\
> ['missed by', named(other.call)]),\n    ['overlaps', many(others.length, 'call')],\n    ['note, invoked', call.note === undefined ? null : mono(no\
teWords(call.note).slice(0, 4000))],\n    ['note, answered', call.answerNote === undefined ? null : mono(noteWords(call.answerNote).slice(0, 4000))]\
,\n  ];\n}\nfunction namesOrNobody(list, call) {\n  const others = list.filter(it => it !== call);\n  return others.length ? namedList(others, 8) : \
'nobody';\n}\nfunction sourceOf(key, value, call) {\n  const list = writers(key, value).filter(it => it !== call);\n  if (list.length) return namedL\
ist(list);\n  return startValues.get(key) === value ? 'the start' : isBad('no call that was recorded');\n}\nfunction pairsTable(call, count) {\n  i\
f (!isScan(call) || !Array.isArray(call.answer) || !call.answer.length) return '';\n  const rows = call.answer.slice(0, count).map(([key, value]) =\
> {\n    const writer = writers(key, value)[0];\n    const source = writer ? callButton(writer, `call ${writer.number}`) : startValues.get(key) === \
value ? 'start' : isBad('nobody');\n    return el('tr', {}, [mono(key), mono(value), source].map(it => el('td', {}, it)));\n  });\n  const whole = e\
l('div', {}, table(['key', 'value', 'written by'], rows));\n  if (call.answer.length > count) {\n    whole.append(button(`all ${call.answer.length} \
pairs`, () => whole.replaceWith(pairsTable(call, 5000))));\n  }\n  return whole;\n}\n\n// ---- Calls: a list of which only the part in sight is mad\
e ----\n\nconst ROW = 24;\nconst matchRoles = new Map();\nlet listed = [];\nlet foundWords = '';\nfunction renderList() {\n  listed = matches.lengt\
h ? matches : shown;\n  $('list-height').style.height = listed.length * ROW + 'px';\n  const clear = button('clear', () => search(''), { class: 'lin\
k' });\n  const head = matches.length ? [foundWords + ' ', clear] : [soft(`${shown.length} of ${many(calls.length, 'call')} pass the filter`)];\n  $\
('list-head').replaceChildren(...head);\n  renderRows();\n}\nfunction renderRows() {\n  if ($('tab-calls').hidden) return;\n  const box = $('list');\
\n  const from = Math.max(0, Math.floor(box.scrollTop / ROW) - 4);\n  const to = Math.min(listed.length, from + Math.ceil(box.clientHeight / ROW) + \
10);\n  $('rows').style.top = from * ROW + 'px';\n  $('rows').replaceChildren(...listed.slice(from, to).map((call, i) => listRow(call, from + i)));\
\n  box.setAttribute('aria-activedescendant', selected ? 'row' + selected.number : '');\n}\nfunction listRow(call, place) {\n  const role = matchRol\
es.has(call) ? matchRoles.get(call) + ' ' : '';\n  const attributes = {\n    class: 'row',\n    role: 'option',\n    id: 'row' + call.number,\n    '\
aria-selected': call === selected,\n    'aria-setsize': listed.length,\n    'aria-posinset': place + 1,\n    onclick: () => select(call),\n  };\n  c\
onst span = isPending(call) ? `${call.from}–` : `${call.from}–${call.to}`;\n  const text = mono(role + words(call, 120), call === wrong ? 'bad' : ''\
);\n  return el('div', attributes, mono(String(call.number)), mono('p' + call.process), text, mono(span));\n}\nfunction scrollTo(call) {\n  const a\
t = listed.indexOf(call) * ROW;\n  const box = $('list');\n  if (at >= 0 && (at < box.scrollTop || at > box.scrollTop + box.clientHeight - ROW)) box\
.scrollTop = at - box.clientHeight / 2;\n  renderRows();\n}\n\n// ---- Data: the lines of the program, as they are ----\n\nfunction renderData() {\
\n  if ($('tab-data').childElementCount) return;\n  const blocks = ['judge', 'locate', 'explain', 'order'].map(id => {\n    const text = blockText(i\
d).trim();\n    const title = id === 'order' ? 'locate --order' : id;\n    return text ? [el('h2', {}, title), el('pre', { tabindex: 0 }, visible(te\
xt).slice(0, 60000))] : [];\n  });\n  const save = () => {\n    const address = URL.createObjectURL(new Blob([blockText('history')], { type: 'applic\
ation/json' }));\n    el('a', { href: address, download: 'history.json' }).click();\n    setTimeout(() => URL.revokeObjectURL(address), 5000);\n  };\
\n  $('tab-data').append(\n    el('p', { class: 'soft' }, 'The lines of the program, as they are. All that this page draws comes from them and from \
the history.'),\n    ...blocks.flat(),\n    el('h2', {}, 'History'),\n    el('p', {}, `Version ${recorded.version}, ${many(events.length, 'event')}.\
`),\n    el('p', {}, button('Save history.json', save)),\n  );\n}\n\n// ---- Searching ----\n\nfunction search(text) {\n  const asked = text.trim();\
\n  $('search').value = text;\n  matchRoles.clear();\n  matches = find(asked);\n  matchSet = new Set(matches);\n  foundWords = /^\\d+$/.test(asked) \
? valueWords(plainNumber(asked)) : many(matches.length, 'call');\n  overviewIsStale = true;\n  if (asked) pick('calls');\n  renderList();\n  if (ask\
ed && !matches.length) $('list-head').replaceChildren(el('span', { class: 'bad' }, 'Nothing is found.'));\n  $('live').textContent = asked ? foundWo\
rds : '';\n  draw();\n}\nfunction find(asked) {\n  if (!asked) return [];\n  const [, sign, digits] = /^([#@kp]?)(\\d+)$/.exec(asked) || [];\n  cons\
t number = digits && plainNumber(digits);\n  if (sign === '#') return calls.filter(call => String(call.number) === number);\n  if (sign === '@') ret\
urn calls.filter(call => [call.from, call.to].map(String).includes(number));\n  if (sign === 'k') return calls.filter(call => touches(call, number))\
;\n  if (sign === 'p') return calls.filter(call => String(call.process) === number);\n  if (number) return calls.filter(call => noteRole(call, numbe\
r));\n  const low = asked.toLowerCase();\n  const texts = call => [words(call, 1e9), call.note || '', call.answerNote || ''];\n  return calls.filter\
(call => texts(call).some(it => it.toLowerCase().includes(low)));\n}\n// What a call does with a value.\nfunction noteRole(call, value) {\n  const r\
eads = () => reported(call).some(([, found]) => found === value);\n  const writes = call.kind === 'insert' ? call.a === value : call.kind === 'repla\
ce' && call.b === value;\n  const role = writes ? 'writes' : reads() ? 'reads' : call.kind === 'replace' && call.a === value ? 'expects' : '';\n  i\
f (role) matchRoles.set(call, role);\n  return role;\n}\nfunction valueWords(value) {\n  const roles = [...matchRoles.values()];\n  const count = ro\
le => roles.filter(it => it === role).length;\n  const expected = count('expects') ? `, expected by ${count('expects')}` : '';\n  const first = star\
t.some(([, found]) => found === value) ? ', there at the start' : '';\n  return `Value ${value}: written by ${count('writes')}, read by ${count('rea\
ds')}${expected}${first}`;\n}\n\n// ---- Choosing calls and steps ----\n\nlet tab = 'why';\nconst TABS = ['why', 'map', 'calls', 'data'];\n\nfunctio\
n select(call, goes = true) {\n  const before = selected;\n  selected = call;\n  const isOutside = it => it && !explaining.has(it);\n  if (call && !\
isShown[call.number] && !filter.few) showAll();\n  else if (filter.few && (isOutside(before) || isOutside(call))) refilter(call);\n  sizeStage();\
\n  if (call && goes) center(call);\n  if (call) $('live').textContent = `Call ${call.number}, process ${call.process}, ${words(call, 120)}, ${spanW\
ords(call)}`;\n  renderCard();\n  if (call) scrollTo(call);\n  else renderRows();\n  for (const item of document.querySelectorAll('ol.few li')) {\
\n    item.classList.toggle('current', call !== null && Number(item.dataset.call) === call.number);\n  }\n  draw();\n  writeLink();\n}\nfunction set\
Step(wanted, goes = true) {\n  step = Math.max(0, Math.min(order.length, wanted));\n  const call = step ? order[step - 1] : null;\n  const text = ca\
ll ? `${words(call, 60)} (call ${call.number}, p${call.process})` : 'before the first call';\n  $('step').value = step;\n  $('step-words').textConte\
nt = order.length ? `${step} of ${order.length}: ${text}` : 'No order is known.';\n  $('step').setAttribute('aria-valuetext', $('step-words').textCo\
ntent);\n  if (tab === 'map') renderMap();\n  if (call && goes) {\n    const column = stepColumn(step - 1);\n    const room = plotWidth() / view.sca\
le;\n    if (column < view.left + 1 || column > view.left + room - 2) moveView(column - room / 2, view.scale);\n  }\n  draw();\n  writeLink();\n}\n/\
/ To the next place of a call that is shown.\nfunction walk(by) {\n  let place = step - 1 + by;\n  while (place >= 0 && place < order.length && !isS\
hown[order[place].number]) place += by;\n  setStep(place < 0 ? 0 : place + 1);\n}\n// To the call before, or the next one, on the selected call's ke\
y.\nfunction near(by) {\n  const same = call => (isScan(selected) ? isScan(call) && call.key === selected.key : touches(call, selected.key));\n  fo\
r (let i = selected.number + by; i >= 0 && i < calls.length; i += by) {\n    if (same(calls[i])) return select(calls[i]);\n  }\n}\nfunction along(by\
) {\n  if (!selected) return select(wrong && isShown[wrong.number] ? wrong : shown[0] || null);\n  const list = shownBy.get(selected.process) || [];\
\n  const next = list[list.indexOf(selected) + by];\n  if (next) select(next);\n}\nfunction across(by) {\n  if (!selected) return along(0);\n  cons\
t list = shownBy.get(lanes[laneOf(selected) + by]);\n  if (!list) return;\n  const far = call => Math.abs(call.from - selected.from);\n  select(list\
.reduce((best, call) => (far(call) < far(best) ? call : best)));\n}\nlet matchPlace = -1;\nfunction nextMatch(by) {\n  if (!matches.length) return;\
\n  matchPlace = matches.includes(selected) ? matches.indexOf(selected) : by > 0 ? -1 : 0;\n  select(matches[(matchPlace + by + matches.length) % ma\
tches.length]);\n  scrollTo(selected);\n}\nfunction pick(name) {\n  tab = name;\n  for (const it of TABS) {\n    $('tab-' + it).hidden = it !== name\
;\n    $('to-' + it).setAttribute('aria-selected', it === name);\n    $('to-' + it).tabIndex = it === name ? 0 : -1;\n  }\n  if (name === 'map') ren\
derMap();\n  if (name === 'data') renderData();\n  if (name === 'calls') renderList();\n  if (name === 'calls' && selected) scrollTo(selected);\n}\n\
\n// ---- Filters ----\n\nfunction showFilter() {\n  $('none').hidden = shown.length > 0;\n  for (const it of $('kinds').children) it.setAttribute('\
aria-pressed', filter.few || filter.kinds.has(it.dataset.kind));\n  $('show-few').setAttribute('aria-pressed', filter.few);\n  $('show-all').setAttr\
ibute('aria-pressed', !filter.few && shown.length === calls.length);\n  renderList();\n}\nfunction showAll() {\n  Object.assign(filter, { few: false\
, kinds: new Set(KINDS), keys: null, processes: null });\n  for (const name of ['keys', 'processes']) {\n    $(name).value = '';\n    $(name).classL\
ist.remove('fault');\n  }\n  refilter(selected);\n  writeLink();\n}\nfunction showFew() {\n  if (!explaining.size) return;\n  filter.few = true;\n  \
refilter();\n  writeLink();\n}\nfunction showFault() {\n  const call = wrong || (few[0] && few[0].call);\n  if (!call) return;\n  if (filter.few || \
!isShown[call.number]) showAll();\n  select(call, false);\n  focusOn(call);\n  setStep(order.length, false);\n}\nfunction filterBy(name) {\n  const \
ranges = readRanges($(name).value);\n  $(name).classList.toggle('fault', ranges === undefined);\n  if (ranges === undefined) return;\n  filter.few \
= false;\n  filter[name] = ranges;\n  refilter();\n  if (selected && isShown[selected.number]) center(selected);\n  if (tab === 'map') renderMap();\
\n  writeLink();\n}\nfunction toggleKind(kind) {\n  if (filter.few) filter.kinds = new Set(KINDS);\n  filter.few = false;\n  if (!filter.kinds.delet\
e(kind)) filter.kinds.add(kind);\n  refilter();\n}\n\n// ---- Links: what is chosen, in the fragment of the address ----\n\nlet linkTimer = 0;\nlet \
isStarted = false;\nfunction writeLink() {\n  if (!isStarted) return;\n  clearTimeout(linkTimer);\n  linkTimer = setTimeout(() => {\n    const part\
s = [];\n    if (selected) parts.push('call=' + selected.number);\n    if (order.length && step !== order.length) parts.push('step=' + step);\n    i\
f (filter.keys) parts.push('keys=' + encodeURIComponent($('keys').value));\n    if (filter.processes) parts.push('processes=' + encodeURIComponent($\
('processes').value));\n    if (!filter.few && explaining.size) parts.push('all');\n    try {\n      history.replaceState(null, '', '#' + parts.join\
('&'));\n    } catch {\n      // Some browsers let no file do that.\n    }\n  }, 150);\n}\n// Numbers are read, and anything else is passed over.\nf\
unction readLink() {\n  const asked = Object.create(null);\n  for (const part of location.hash.slice(1).split('&')) {\n    const [name, value = ''] \
= part.split('=', 2);\n    try {\n      asked[name] = decodeURIComponent(value);\n    } catch {\n      // It is no text.\n    }\n  }\n  const numbe\
r = name => (/^\\d{1,6}$/.test(asked[name] || '') ? Number(asked[name]) : -1);\n  if (asked.keys !== undefined || asked.processes !== undefined || a\
sked.all !== undefined) {\n    filter.few = false;\n    for (const name of ['keys', 'processes']) {\n      filter[name] = readRanges(asked[name] || \
'') || null;\n      $(name).value = filter[name] ? asked[name] : '';\n    }\n    refilter();\n  }\n  if (number('step') >= 0) setStep(number('step')\
, false);\n  const call = calls[number('call')] || calls[callAt[number('event')]];\n  if (!call) return;\n  select(call, false);\n  if (!filter.few\
) focusOn(call);\n}\n\n// ---- Hands and keys ----\n\nfunction showHelp(on) {\n  $('help').hidden = !on;\n  if (on) $('close-help').focus();\n  els\
e canvas.focus({ preventScroll: true });\n}\nfunction setTheme(theme) {\n  document.documentElement.dataset.theme = theme;\n  $('theme').textConten\
t = theme === 'dark' ? 'Light' : 'Dark';\n  readColours();\n  draw();\n}\nconst otherTheme = () => setTheme(document.documentElement.dataset.theme =\
== 'dark' ? 'light' : 'dark');\nfunction tip(text, x, y) {\n  const box = $('tip');\n  box.hidden = !text;\n  box.textContent = text;\n  const size \
= box.getBoundingClientRect();\n  const fitsBelow = y + 18 + size.height <= innerHeight;\n  box.style.left = Math.max(4, Math.min(innerWidth - size.\
width - 8, x + 14)) + 'px';\n  box.style.top = (fitsBelow ? y + 18 : Math.max(4, y - size.height - 10)) + 'px';\n}\nfunction tipOf(call) {\n  const \
it = fewOf.get(call);\n  const notes = [call.note, call.answerNote].filter(note => note !== undefined);\n  return [\n    `call ${call.number} of pro\
cess ${call.process}, ${spanWords(call)}`,\n    words(call, 400),\n    call.place < 0 ? '' : `place ${call.place + 1} of ${order.length}`,\n    cal\
l === wrong ? 'goes wrong here' : '',\n    ...(it ? it.misses : []).map(missed => `misses ${callWords(missed)} (call ${missed.number}, p${missed.pro\
cess})`),\n    ...notes.map(note => 'note ' + noteWords(note).slice(0, 200)),\n  ].filter(Boolean).join('\\n');\n}\nfunction tipOfStrip({ key, life \
}) {\n  const writer = life.call ? `, written by ${callWords(life.call)} (call ${life.call.number}, p${life.call.process})` : ' from the start';\n  \
return `key ${key} holds ${life.value}${writer}`;\n}\n\nfunction listenToCanvas() {\n  let from = null;\n  let isMoved = false;\n  canvas.addEventLi\
stener('pointerdown', event => {\n    from = [event.offsetX, event.offsetY];\n    isMoved = false;\n    canvas.setPointerCapture(event.pointerId);\
\n  });\n  canvas.addEventListener('pointermove', event => {\n    const [x, y] = [event.offsetX, event.offsetY];\n    if (!from) return hover(x, y, \
event);\n    if (!isMoved && Math.abs(x - from[0]) + Math.abs(y - from[1]) <= 4) return;\n    isMoved = true;\n    canvas.classList.add('drag');\
\n    tip('', 0, 0);\n    moveView(view.left - (x - from[0]) / view.scale, view.scale, view.top - (y - from[1]));\n    from = [x, y];\n  });\n  cons\
t end = event => {\n    canvas.classList.remove('drag');\n    if (from && !isMoved && event.type === 'pointerup') {\n      const strip = stripAtPoin\
t(event.offsetX, event.offsetY);\n      select(strip ? strip.life.call : callAtPoint(event.offsetX, event.offsetY), false);\n      canvas.focus({ pr\
eventScroll: true });\n    }\n    from = null;\n  };\n  canvas.addEventListener('pointerup', end);\n  canvas.addEventListener('pointercancel', end);\
\n  canvas.addEventListener('pointerleave', () => {\n    hovered = null;\n    tip('', 0, 0);\n    draw();\n  });\n  canvas.addEventListener('wheel'\
, turnWheel, { passive: false });\n}\nfunction hover(x, y, event) {\n  const call = callAtPoint(x, y);\n  const strip = call ? null : stripAtPoint(x\
, y);\n  if (call !== hovered) draw();\n  hovered = call;\n  canvas.style.cursor = call || strip ? 'pointer' : '';\n  tip(call ? tipOf(call) : stri\
p ? tipOfStrip(strip) : '', event.clientX, event.clientY);\n}\n// The wheel zooms; with Shift it moves, and with Alt it scrolls the lanes. Of one co\
lumn it scrolls the page, unless Ctrl is held.\nfunction turnWheel(event) {\n  if (NARROW.matches && !event.ctrlKey && !event.shiftKey && !event.alt\
Key) return;\n  event.preventDefault();\n  const by = (event.deltaMode ? 16 : 1) * (event.deltaX || event.deltaY);\n  const isAcross = event.shiftKe\
y || Math.abs(event.deltaX) > Math.abs(event.deltaY);\n  if (isAcross) moveView(view.left + by / view.scale, view.scale);\n  else if (event.altKey) \
moveView(view.left, view.scale, view.top + by);\n  else zoom(Math.exp(-by * 0.0022), event.offsetX);\n}\nfunction listenToOverview() {\n  let isDrag\
ged = false;\n  const go = event => {\n    const box = overview.getBoundingClientRect();\n    const column = ((event.clientX - box.left) / box.width\
) * columns;\n    moveView(column - plotWidth() / view.scale / 2, view.scale);\n  };\n  overview.onpointerdown = event => {\n    isDragged = true;\
\n    overview.setPointerCapture(event.pointerId);\n    if (view.scale < leastScale() * 1.5 && columns > 80) view.scale = Math.min(26, leastScale() \
* 8);\n    go(event);\n  };\n  overview.onpointermove = event => isDragged && go(event);\n  overview.onpointerup = overview.onpointercancel = () => \
{\n    isDragged = false;\n  };\n}\n\nconst KEYS = {\n  ',': () => walk(-1),\n  '.': () => walk(1),\n  '+': () => zoom(1.4),\n  '=': () => zoom(1.4)\
,\n  '-': () => zoom(1 / 1.4),\n  0: () => {\n    fitView();\n    draw();\n  },\n  f: showFault,\n  e: showFew,\n  a: showAll,\n  d: otherTheme,\n  \
n: () => nextMatch(1),\n  N: () => nextMatch(-1),\n  '/': () => $('search').select(),\n  '?': () => showHelp(true),\n  Escape: () => (matches.lengt\
h ? search('') : select(null)),\n};\nconst ARROWS = { ArrowRight: () => along(1), ArrowLeft: () => along(-1), ArrowDown: () => across(1), ArrowUp: (\
) => across(-1) };\nfunction pressKey(event) {\n  if (event.ctrlKey || event.metaKey || event.altKey) return;\n  if (!$('help').hidden) {\n    if (e\
vent.key === 'Escape' || event.key === '?') showHelp(false);\n    return;\n  }\n  if (event.target.tagName === 'INPUT' && event.target.type !== 'ran\
ge') {\n    if (event.key === 'Escape') canvas.focus();\n    return;\n  }\n  const isFree = event.target === canvas || event.target === document.bod\
y;\n  const act = KEYS[event.key] || KEYS[event.key.toLowerCase()] || (isFree && ARROWS[event.key]);\n  if (!act) return;\n  event.preventDefault();\
\n  act();\n}\nfunction pressInTabs(event) {\n  const by = { ArrowRight: 1, ArrowLeft: -1 }[event.key];\n  if (!by) return;\n  pick(TABS[(TABS.index\
Of(tab) + by + TABS.length) % TABS.length]);\n  $('to-' + tab).focus();\n  event.preventDefault();\n}\nfunction pressInList(event) {\n  const by = \
{ ArrowDown: 1, ArrowUp: -1, PageDown: 15, PageUp: -15 }[event.key];\n  if (!by || !listed.length) return;\n  const place = selected ? listed.indexO\
f(selected) + by : 0;\n  select(listed[Math.max(0, Math.min(listed.length - 1, place))]);\n  scrollTo(selected);\n  event.preventDefault();\n  event\
.stopPropagation();\n}\nfunction pressInSearch(event) {\n  if (event.key === 'Escape') search('');\n  if (event.key !== 'Enter') return;\n  if ($('s\
earch').value.trim() !== searched) searchNow();\n  nextMatch(event.shiftKey ? -1 : 1);\n}\nlet searchTimer = 0;\nlet searched = '';\nfunction search\
Now() {\n  clearTimeout(searchTimer);\n  searched = $('search').value.trim();\n  search($('search').value);\n}\n\nfunction listenToButtons() {\n  co\
nst actions = { 'show-few': showFew, 'show-all': showAll, 'show-fault': showFault, 'clear-filter': showAll, theme: otherTheme };\n  for (const [id, \
act] of Object.entries(actions)) $(id).onclick = act;\n  for (const name of ['keys', 'processes']) $(name).oninput = () => filterBy(name);\n  for (c\
onst name of TABS) $('to-' + name).onclick = () => pick(name);\n  $('to-why').parentNode.onkeydown = pressInTabs;\n  $('first').onclick = () => setS\
tep(0);\n  $('back').onclick = () => walk(-1);\n  $('forward').onclick = () => walk(1);\n  $('last').onclick = () => setStep(order.length);\n  $('st\
ep').oninput = () => {\n    setStep(Number($('step').value));\n    if (tab !== 'map') pick('map');\n  };\n  $('search').onkeydown = pressInSearch;\
\n  $('search').oninput = () => {\n    clearTimeout(searchTimer);\n    searchTimer = setTimeout(searchNow, 120);\n  };\n  $('list').onscroll = rende\
rRows;\n  $('list').onkeydown = pressInList;\n  $('show-help').onclick = () => showHelp(true);\n  $('close-help').onclick = () => showHelp(false);\
\n  $('help').onclick = event => event.target === $('help') && showHelp(false);\n  document.addEventListener('keydown', pressKey);\n}\nfunction list\
enToWindow() {\n  const dark = matchMedia('(prefers-color-scheme: dark)');\n  setTheme(dark.matches ? 'dark' : 'light');\n  dark.addEventListener('c\
hange', () => setTheme(dark.matches ? 'dark' : 'light'));\n  addEventListener('hashchange', readLink);\n  new ResizeObserver(() => {\n    resize();\
\n    if (filter.few) fitView();\n  }).observe($('stage'));\n  let before = null;\n  const print = on => {\n    printing = on;\n    if (on) before \
= document.documentElement.dataset.theme;\n    setTheme(on ? 'light' : before);\n    canvas.style.width = on ? '100%' : '';\n    resize();\n    pain\
t();\n  };\n  addEventListener('beforeprint', () => print(true));\n  addEventListener('afterprint', () => print(false));\n}\n\n// ---- The start ---\
-\n\nconst NARROW = matchMedia('(max-width: 1000px)');\nfunction headline() {\n  if (wrong) return `Goes wrong at event ${wrong.to}: ${words(wrong, \
90)} (call ${wrong.number} of process ${wrong.process})`;\n  if (verdict === 'yes') return order.length ? `One order of ${many(order.length, 'call')\
} explains every response.` : 'No call has to have an order.';\n  if (verdict === 'no') return `The ${many(judged.calls.length, 'call')} at ${segmen\
tWords} have no order.`;\n  if (few.length) return `${many(few.length, 'call')} of it have no order on their own. At which event it goes wrong is no\
t known.`;\n  return locatedVerdict === 'yes' ? 'So says locate; judge is undecided.' : 'Its search met more states than the budget.';\n}\nfunction \
renderHeader() {\n  $('badge').textContent = { yes: 'Linearizable', no: 'Not linearizable', undecided: 'Undecided' }[shownVerdict];\n  $('badge').cl\
assName = shownVerdict;\n  $('headline').textContent = headline();\n  const counts = [many(calls.length, 'call'), many(processes.length, 'process')\
, many(keys.length, 'key')];\n  $('facts').textContent = [...counts, 'overlap ' + overlap].join(' · ');\n  document.title = `${$('badge').textConten\
t} · ${counts[0]} · Potzendai`;\n  for (const kind of KINDS.filter(it => calls.some(call => call.kind === it))) {\n    const mark = el('i', { class\
: 'mark-' + kind });\n    $('kinds').append(button([mark, kind], () => toggleKind(kind), { class: 'kind', 'data-kind': kind }));\n  }\n  $('step').m\
ax = order.length;\n  for (const id of ['step', 'first', 'back', 'forward', 'last']) $(id).disabled = !order.length;\n  $('show-few').disabled = !ex\
plaining.size;\n  $('show-fault').disabled = !wrong && !few.length;\n}\n\nrenderHeader();\nlistenToButtons();\nlistenToCanvas();\nlistenToOverview()\
;\nlistenToWindow();\nresize();\nrefilter();\nrenderWhy();\nsetStep(order.length, false);\npick('why');\nreadLink();\nisStarted = true;\n</script>\
\n  </body>\n</html>\n";
