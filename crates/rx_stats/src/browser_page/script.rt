// The script, before what marbles.rt has: it looks again once a second, and shows the subjects and the observers of the chosen one. Texts
// of the server become texts of the page alone, and names are keys of a Map: a subject may be called `constructor`.

pub(crate) const SCRIPT: &str = r##"
"use strict";
const $ = (id) => document.getElementById(id);
const number = (n) => n.toLocaleString("en");
const bytes = (n, scale = n < 1e3 ? 0 : n < 1e6 ? 1 : n < 1e9 ? 2 : 3) => `${number(Number((n / 1e3 ** scale).toPrecision(3)))} ${["B", "KB", "MB", "GB"][scale]}`;
const pause = (ms) => new Promise((done) => setTimeout(done, ms));
const lines = [], rows = new Map(), rates = new Map();
let subject = null, seen = null;

function element(tag, name = "", ...inside) {
  const made = document.createElement(tag);
  made.className = name;
  made.append(...inside);
  return made;
}

// A text that stays as it was is not told again to who listens to the page.
function say(place, text, name = place.className) {
  if (place.textContent !== text) place.textContent = text;
  place.className = name;
}

// Without an answer the status is 0.
async function post(path, body = "") {
  try {
    const answer = await fetch(path, { method: "POST", body });
    return { status: answer.status, ...await answer.json().catch(() => ({})) };
  } catch {
    return { status: 0 };
  }
}

function bar(part, name = "") {
  const inside = element("i");
  inside.style.width = `${Math.min(100, part * 100)}%`;
  return element("span", `bar ${name}`, inside);
}

function spark(list) {
  const [drawn, line] = ["svg", "polyline"].map((tag) => document.createElementNS("http://www.w3.org/2000/svg", tag)), top = Math.max(1, ...list);
  line.setAttribute("points", list.map((rate, at) => `${((60 - list.length + at) * 1.55).toFixed(1)},${(20 - rate / top * 18).toFixed(1)}`).join(" "));
  drawn.setAttribute("viewBox", "0 0 92 22");
  drawn.append(line);
  return drawn;
}

// The items a second at each look of the last minute. After a pause, or by another server, it begins anew.
function rated(one, now) {
  const last = rates.get(one.name), seconds = (now - last?.now) / 1000;
  const list = last?.epoch === seen.epoch && seconds < 5 ? last.list.concat((one.items - last.items) / seconds).slice(-60) : [];
  rates.set(one.name, { list, items: one.items, epoch: seen.epoch, now });
  return list;
}

function rowOf(name) {
  if (!rows.has(name)) {
    const link = element("a", "", name), head = element("th", "", link), row = element("tr", "", head);
    link.href = `#${name}`;
    head.scope = "row";
    for (let at = 0; at < 8; at++) row.append(element("td"));
    row.onclick = () => location.hash = name;
    rows.set(name, row);
  }
  return rows.get(name);
}

function showSubject(one, now) {
  const row = rowOf(one.name), cells = row.cells, end = one.gone ? "gone" : one.end || "open";
  say(cells[1], one.kind);
  cells[2].replaceChildren(element("span", `pill ${end}`, end));
  if (one.gone) {
    for (const cell of [...cells].slice(3)) say(cell, "");
    return row;
  }
  const list = rated(one, now), full = one.bytes / one.budget;
  say(cells[3], number(one.items));
  cells[4].replaceChildren(spark(list), list.length ? number(Math.round(list.at(-1))) : "");
  say(cells[5], number(one.observers.length));
  say(cells[6], number(one.observers.reduce((sum, each) => sum + each.waiting, 0)));
  say(cells[7], number(one.refused));
  if (one.budget) cells[8].replaceChildren(bar(full, full > .95 ? "bad" : full > .8 ? "warn" : ""), `${bytes(one.bytes)} of ${bytes(one.budget)}`);
  return row;
}

function showObserver(each, most) {
  const room = Number(each.strategy.split(":")[1]), own = lines.findIndex((line) => line.observer === `${seen.epoch}-${each.who}`);
  const head = element("th", "", number(each.who), element("small", "", own < 0 ? "" : ` line ${own + 1} of this page`));
  head.scope = "row";
  const waiting = element("td", "", bar(each.waiting / (room || most), each.waiting >= room && each.waiting ? "warn" : ""), number(each.waiting));
  return element("tr", "", head, element("td", "", each.strategy), element("td", "", each.errors), waiting, element("td", "", number(each.owed)));
}

function show() {
  const now = performance.now(), shown = seen.subjects.map((one) => showSubject(one, now)), table = $("Subjects");
  say($("Epoch"), seen.epoch);
  say($("Sessions"), number(seen.connections.sessions.open));
  say($("Http"), number(seen.connections.http.open));
  if (shown.length !== table.children.length || shown.some((row, at) => row !== table.children[at])) table.replaceChildren(...shown);
  choose();
}

// The subject that the fragment names, else the first.
function choose() {
  const chosen = seen.subjects.find((one) => one.name === location.hash.slice(1)) || seen.subjects[0];
  if (chosen.name !== subject) follow(chosen.name);
  const held = chosen.observers || [], most = Math.max(16, ...held.map((each) => each.waiting));
  $("Observers").replaceChildren(...held.map((each) => showObserver(each, most)));
  $("Nobody").hidden = held.length > 0;
}

function follow(chosen) {
  for (const [name, row] of rows) {
    row.className = name === chosen ? "on" : "";
    row.cells[0].firstChild.ariaCurrent = name === chosen;
  }
  subject = chosen;
  document.title = `${subject} - rxline`;
  say($("Title"), subject);
  say($("Said"), "");
  while (lines.length) lines[0].close();
  words.length = 0;
  told++;
  $("Chosen").hidden = false;
  add("LATEST:16", 0);
}

async function look() {
  try {
    const answer = await fetch("stats", { cache: "no-store", signal: AbortSignal.timeout(9000) });
    if (!answer.ok) return say($("State"), `stats: ${answer.status}`, "pill bad");
    seen = await answer.json();
    show();
    say($("State"), "serving", "pill open");
  } catch {
    say($("State"), "not reached", "pill bad");
  }
}

$("Emit").onsubmit = async (event) => {
  event.preventDefault();
  const text = $("Text").value, said = await post(`subjects/${subject}`, text);
  if (said.status === 200) {
    say($("Said"), `accepted, place ${said.place}`, "");
    if ($("Text").value === text) $("Text").value = "";
  } else say($("Said"), said.error ? `${said.error}: ${said.text}` : `no answer (${said.status || "not reached"}): it was accepted or not`, "bad");
};
$("Add").onsubmit = (event) => {
  event.preventDefault();
  add($("Strategy").value, Number($("Pace").value));
};
onhashchange = () => seen && choose();
"##;
