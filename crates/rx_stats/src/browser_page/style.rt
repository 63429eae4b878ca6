// The style: light or dark as the system is, and below 1,100 pixels each row of a table is a card.

pub(crate) const STYLE: &str = r##"
:root { color-scheme: light dark; --back: #f5f4f0; --card: #fff; --ink: #1d1f24; --dim: #666a72; --rule: #dddbd3; --good: #1c7747; --warn: #955700; --bad: #b3293e; --accent: #2c5fb5; }
@media (prefers-color-scheme: dark) { :root { --back: #131519; --card: #1b1e24; --ink: #e8e6e1; --dim: #9a9fa8; --rule: #31353d; --good: #5cc68d; --warn: #e7a93c; --bad: #f27e8c; --accent: #8db2f2; } }
* { box-sizing: border-box; }
[hidden] { display: none !important; }
body { margin: 0; background: var(--back); color: var(--ink); font: 15px/1.45 system-ui, "Segoe UI", "DejaVu Sans", sans-serif; font-variant-numeric: tabular-nums; }
main { max-width: 1240px; margin: 0 auto; padding: 20px clamp(10px, 2.4vw, 28px); }
header { display: flex; align-items: center; gap: 6px 14px; flex-wrap: wrap; margin: 0 2px 16px; color: var(--dim); font-size: 14px; }
h1 { font-size: 25px; line-height: 1.2; margin: 0; letter-spacing: -.02em; color: var(--ink); }
h1 b { color: var(--accent); }
section { background: var(--card); border: 1px solid var(--rule); border-radius: 12px; margin-bottom: 16px; overflow: auto; }
table { border-collapse: collapse; width: 100%; }
th, td { padding: 8px 13px; text-align: left; white-space: nowrap; }
thead th { font-size: 12.5px; font-weight: 600; color: var(--dim); }
tbody tr { border-top: 1px solid var(--rule); }
.numbers :is(th, td):nth-child(n+4):not(:nth-child(5), :last-child), #Held :is(th, td):last-child { text-align: right; }
#Subjects tr { cursor: pointer; }
#Subjects tr:hover { background: color-mix(in srgb, var(--accent) 6%, transparent); }
#Subjects tr.on { background: color-mix(in srgb, var(--accent) 12%, transparent); }
#Subjects a { color: inherit; text-decoration: none; }
#Subjects td:nth-child(2), small, label, .hint { color: var(--dim); font-size: 14px; font-weight: 400; }
.pill { border-radius: 99px; padding: 1px 10px 2px; font-size: 13px; font-weight: 600; color: var(--tone, var(--dim)); background: color-mix(in srgb, var(--tone, var(--dim)) 15%, transparent); }
.pill:empty { display: none; }
.open { --tone: var(--good); }
.completed, .warn { --tone: var(--warn); }
.failed, .gone, .bad { --tone: var(--bad); }
.bar { display: inline-block; width: 72px; height: 7px; border-radius: 9px; background: color-mix(in srgb, var(--dim) 24%, transparent); vertical-align: middle; margin-right: 8px; overflow: hidden; }
.bar i { display: block; height: 100%; background: var(--tone, var(--accent)); }
svg { width: 92px; height: 22px; vertical-align: middle; margin-right: 8px; }
polyline { fill: none; stroke: var(--accent); stroke-width: 1.6; stroke-linejoin: round; }
form, .hint { display: flex; gap: 8px 12px; align-items: center; flex-wrap: wrap; margin: 0; padding: 12px 14px; }
h2 { font-size: 18px; margin: 0; flex: 1 1 auto; overflow-wrap: anywhere; }
label { display: flex; gap: 8px; align-items: center; }
#Emit label { flex: 1 1 140px; max-width: 480px; min-width: 0; }
button, select, input { font: inherit; font-size: 14px; color: var(--ink); background: var(--back); border: 1px solid var(--rule); border-radius: 8px; padding: 5px 10px; }
input { flex: 1; min-width: 0; }
button { cursor: pointer; }
button:hover { border-color: var(--accent); }
button:disabled { color: var(--dim); cursor: default; }
#Emit button { background: var(--accent); color: var(--card); font-weight: 600; }
:focus-visible { outline: 2px solid var(--accent); outline-offset: 2px; }
#Said { color: var(--tone, var(--dim)); overflow-wrap: anywhere; }
.line { position: relative; border-top: 1px solid var(--rule); }
canvas { display: block; width: 100%; height: 108px; touch-action: pan-y; }
.line p { position: absolute; left: 14px; right: 44px; top: 6px; margin: 0; font-size: 13px; color: var(--dim); pointer-events: none; }
.line b { color: var(--ink); }
.line button { position: absolute; right: 8px; top: 4px; border: 0; background: none; color: var(--dim); padding: 0 8px; font-size: 17px; }
#Log { padding: 8px 14px; border: solid var(--rule); border-width: 1px 0; font: 12.5px/1.6 ui-monospace, "DejaVu Sans Mono", monospace; height: 137px; overflow: auto hidden; white-space: pre; color: var(--dim); }
#Log b { font-weight: 500; color: var(--tone, var(--ink)); }
#Tip { position: fixed; pointer-events: none; background: var(--ink); color: var(--back); border-radius: 7px; padding: 5px 9px; font-size: 13px; max-width: min(420px, 70vw); white-space: pre-wrap; overflow-wrap: anywhere; }
@media (max-width: 1100px) {
  thead { position: absolute; width: 1px; height: 1px; overflow: hidden; clip-path: inset(50%); }
  tbody tr { display: flex; flex-wrap: wrap; gap: 2px 16px; align-items: center; padding: 8px 14px; }
  tbody :is(th, td) { padding: 0; }
  td:empty { display: none; }
  #Subjects td:nth-child(5) { order: 1; }
  td::before { color: var(--dim); }
  #Subjects td:nth-child(4)::before { content: "items "; }
  #Subjects td:nth-child(6)::before { content: "observers "; }
  :is(#Subjects td:nth-child(7), #Observers td:nth-child(4))::before { content: "waiting "; }
  #Subjects td:nth-child(8)::before { content: "refused "; }
  #Subjects td:nth-child(5)::after { content: " a second"; color: var(--dim); }
  #Observers td:last-child::before { content: "owed "; }
}
"##;
