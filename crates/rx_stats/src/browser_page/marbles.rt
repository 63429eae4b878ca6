// The script, behind what script.rt has: the lines of marbles, each over events of its own, drawn from now on the right to 16 seconds ago.
//
// Sockets, proxies and browsers hold any number of items, and a strategy would begin behind them. So a line asks for its items itself,
// once it drew those before: by one POST at a time, since a browser has six connections to a host. A line under BUFFER that is quick
// need not. A tab that isn't seen draws nothing, and asks for nothing.
//
// An EventSource comes again by itself, but gives up for good at any status but 200, as that of a proxy whose server is away. Then it is
// opened anew: after a second, and where that fails again at once, after two, and so on to half a minute.

pub(crate) const MARBLES: &str = r##"
const SPAN = 16000, MOST_LINES = 4, MOST_MARBLES = 2000, FONT = "system-ui, 'DejaVu Sans', sans-serif";
const words = [], hues = [214, 342, 158, 24, 268, 188, 92, 4], hueOf = new Map();
const STORY = { cut: "cut off", restarted: "server restarted", overflow: "overflow", done: "completed", failed: "failed" };
const still = matchMedia("(prefers-reduced-motion: reduce)");
let ink, told = 0, logged = 0;

class Line {
  constructor(strategy, pace) {
    Object.assign(this, { subject, strategy, pace, marbles: [], heard: 0, missed: 0, due: 0, id: "", wait: 500, since: Infinity, state: "opening" });
    this.asks = pace > 0 || strategy !== "BUFFER";
    const close = element("button", "", "\u00d7");
    close.ariaLabel = `Close the line ${strategy}`;
    close.onclick = () => this.close();
    this.canvas = element("canvas");
    this.canvas.onpointermove = (event) => this.point(event);
    this.canvas.onpointerleave = () => $("Tip").hidden = true;
    this.tag = element("span");
    this.box = element("div", "line", this.canvas, element("p", "", element("b", "", strategy), this.tag), close);
    $("Lines").append(this.box);
    this.open();
  }

  open() {
    const asked = this.asks ? `&credit=asked&window=${this.pace ? 1 : 16}` : "", known = this.id ? `&last-event-id=${this.id}` : "";
    this.source = new EventSource(`subjects/${this.subject}?strategy=${this.strategy}${asked}${known}`);
    for (const kind of ["joined", "next", "next64", "missed", "restarted", "done", "failed", "overflow"]) {
      this.source.addEventListener(kind, (event) => {
        this.id = event.lastEventId;
        this.hear(kind, event.data);
      });
    }
    this.source.onerror = () => {
      if (this.state === "live") this.mark("cut");
      this.state = "away";
      if (this.source.readyState === EventSource.CLOSED) this.later();
    };
  }

  later() {
    this.wait = performance.now() - this.since > 10000 ? 1000 : Math.min(2 * this.wait, 32000);
    this.since = Infinity;
    this.timer = setTimeout(() => this.open(), this.wait);
  }

  hear(kind, text) {
    const isItem = kind.startsWith("next");
    if (words.push([this, kind, isItem ? this.place() : "", text, new Date()]) > 6) words.shift();
    told++;
    if (kind === "joined") return Object.assign(this, { observer: text, due: 0, state: "live", since: performance.now() });
    this.mark(isItem ? "item" : kind, text);
    if (isItem) {
      this.heard++;
      this.due++;
      this.ask();
    } else if (kind === "missed") this.missed += Number(text);
    else if (kind !== "restarted") {
      this.source.close();
      this.state = kind === "overflow" ? "away" : "over";
      if (kind === "overflow") this.later();
    }
  }

  place() {
    return this.id.split("-")[1] || "";
  }

  async ask() {
    if (!this.asks || this.isAsking) return;
    this.isAsking = true;
    while (this.due > 0 && this.state === "live") {
      await new Promise(requestAnimationFrame);
      await pause(this.pace);
      const { observer, due } = this, { status } = await post(`subjects/${this.subject}/observers/${observer}?request=${due}`);
      if (this.observer !== observer) continue; // it joined again meanwhile, and has its window anew
      if (status === 0 || status >= 500) await pause(1000);
      else this.due = status < 400 ? this.due - due : -Infinity; // refused: it asks for no more until it joins again
    }
    this.isAsking = false;
  }

  // What is missed close behind what was missed is told as one number.
  mark(kind, text = "") {
    const last = kind === "missed" && this.marbles.findLast((one) => one.kind === kind);
    if (last && performance.now() - last.at < SPAN * 32 / this.canvas.clientWidth) return last.text = `${Number(last.text) + Number(text)}`;
    this.marbles.push({ at: performance.now(), kind, text, place: this.place(), x: -99, y: 0 });
    if (this.marbles.length > MOST_MARBLES) this.marbles.splice(0, MOST_MARBLES / 4);
  }

  close() {
    clearTimeout(this.timer);
    this.source.close();
    this.state = "closed";
    this.box.remove();
    lines.splice(lines.indexOf(this), 1);
    $("More").disabled = false;
    $("Tip").hidden = true;
  }

  point(event) {
    const hit = this.marbles.findLast((one) => Math.hypot(one.x - event.offsetX, one.y - event.offsetY) < 16), tip = $("Tip");
    tip.hidden = !hit;
    if (!hit) return;
    say(tip, `${hit.kind === "item" ? `place ${hit.place}` : STORY[hit.kind] || hit.kind}\n${hit.text.slice(0, 300)}`);
    tip.style.left = `${Math.min(event.clientX + 14, innerWidth - tip.offsetWidth - 8)}px`;
    tip.style.top = `${event.clientY + 12}px`;
  }

  draw(now) {
    const { canvas, marbles } = this, wide = canvas.clientWidth, high = canvas.clientHeight, fine = devicePixelRatio || 1;
    if (canvas.width !== Math.round(wide * fine)) Object.assign(canvas, { width: Math.round(wide * fine), height: Math.round(high * fine) });
    const pen = canvas.getContext("2d"), right = wide - 28, y = 62;
    pen.setTransform(fine, 0, 0, fine, 0, 0);
    pen.clearRect(0, 0, wide, high);
    Object.assign(pen, { textAlign: "center", textBaseline: "middle" });
    this.drawAxis(pen, wide, right, y, high);
    while (marbles.length && now - marbles[0].at > SPAN) marbles.shift();
    const many = marbles.filter((one) => one.kind === "item").length;
    let stack = 0, before = -99;
    for (const one of marbles) {
      one.x = right - (now - one.at) / SPAN * (right - 12);
      one.y = y;
      if (one.kind !== "item") continue;
      stack = one.x - before < 22 ? stack + 1 : 0;
      if (!stack) before = one.x;
      if (many < 300) one.y -= Math.min(stack, 4) * 3;
      drawMarble(pen, one, many, still.matches ? 1 : Math.min(1, .5 + (now - one.at) / 400));
    }
    for (const one of marbles) if (one.kind !== "item") drawMark(pen, one);
    const facts = [` line ${lines.indexOf(this) + 1}`, this.pace && `${1000 / this.pace} a second`, `${number(this.heard)} heard`, this.missed && `${number(this.missed)} missed`];
    say(this.tag, facts.concat(this.due < 0 && "may not ask for more", this.state !== "live" && this.state).filter(Boolean).join(", "));
  }

  drawAxis(pen, wide, right, y, high) {
    Object.assign(pen, { lineWidth: 2, strokeStyle: this.state === "live" ? ink.dim : ink.rule, fillStyle: ink.dim, font: `11px ${FONT}` });
    pen.setLineDash(this.state === "live" || this.state === "over" ? [] : [5, 5]);
    stroke(pen, [12, y], [wide - 14, y]);
    pen.setLineDash([]);
    stroke(pen, [wide - 21, y - 5], [wide - 13, y], [wide - 21, y + 5]);
    for (let ago = 4; ago < SPAN / 1000; ago += 4) pen.fillText(`${ago} s ago`, right - ago * 1000 / SPAN * (right - 12), high - 9);
  }
}

// Of many marbles each is small, and of very many a stroke.
function drawMarble(pen, one, many, grown) {
  pen.fillStyle = `hsl(${hueFor(first(one.text))} 60% 37%)`;
  if (many > 300) return pen.fillRect(one.x - 1, one.y - 8, 2, 16);
  pen.beginPath();
  pen.arc(one.x, one.y, (many > 120 ? 6 : many > 40 ? 12 : 16) * grown, 0, 7);
  pen.fill();
  Object.assign(pen, { lineWidth: 1.5, strokeStyle: ink.card });
  pen.stroke();
  if (many > 120) return;
  Object.assign(pen, { fillStyle: "#fff", font: `600 ${many > 40 ? 9 : 11}px ${FONT}` });
  pen.fillText(label(one.text), one.x, one.y + .5, many > 40 ? 22 : 29);
}

function drawMark(pen, { kind, text, x, y }) {
  const colour = { done: ink.ink, missed: ink.warn, restarted: ink.warn }[kind] || ink.bad;
  Object.assign(pen, { fillStyle: colour, font: `600 11px ${FONT}` });
  if (kind === "missed") return pen.fillText(`\u2212${number(Number(text))}`, x, y + 24);
  pen.fillText(STORY[kind], x, y - 30);
  for (const [lineWidth, strokeStyle] of [[7, ink.card], [2.5, colour]]) {
    Object.assign(pen, { lineWidth, strokeStyle });
    if (lineWidth < 7 && (kind === "restarted" || kind === "cut")) pen.setLineDash([4, 4]);
    if (kind === "failed" || kind === "overflow") {
      stroke(pen, [x - 9, y - 9], [x + 9, y + 9]);
      stroke(pen, [x + 9, y - 9], [x - 9, y + 9]);
    } else stroke(pen, [x, y - 22], [x, y + 22]);
  }
  pen.setLineDash([]);
}

function stroke(pen, ...points) {
  pen.beginPath();
  for (const [x, y] of points) pen.lineTo(x, y);
  pen.stroke();
}

const first = (text) => text.trim().split(/\s/)[0];

function label(text) {
  const word = [...first(text)];
  return word.length > 4 ? `${word.slice(0, 3).join("")}\u2026` : word.join("");
}

function hueFor(word) {
  if (hueOf.size > 999) hueOf.clear();
  if (!hueOf.has(word)) hueOf.set(word, hues[hueOf.size % hues.length]);
  return hueOf.get(word);
}

function add(strategy, pace) {
  if (lines.length < MOST_LINES) lines.push(new Line(strategy, pace));
  $("More").disabled = lines.length === MOST_LINES;
}

function wordRow([line, kind, place, text, at]) {
  const name = { missed: "warn", restarted: "warn", overflow: "bad", failed: "bad" }[kind];
  return element("div", "", `${at.toTimeString().slice(0, 8)}  `, line.strategy.padEnd(11), kind.padEnd(10), place.padStart(7), "  ", element("b", name, text.slice(0, 90).replace(/\s/g, " ")));
}

function frame() {
  const style = getComputedStyle(document.documentElement), now = performance.now();
  ink = Object.fromEntries(["ink", "dim", "rule", "card", "warn", "bad"].map((name) => [name, style.getPropertyValue(`--${name}`)]));
  for (const line of lines) line.draw(now);
  if (logged !== told) $("Log").replaceChildren(...words.map(wordRow));
  logged = told;
  if (still.matches || lines.every((line) => !line.marbles.length)) setTimeout(frame, 300);
  else requestAnimationFrame(frame);
}

async function watch() {
  for (;;) {
    if (!document.hidden) await look();
    await pause(1000);
  }
}

frame();
watch();
"##;
