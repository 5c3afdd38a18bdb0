//! The text of the page. It is one file of HTML, whose style and script are an element each; `POLICY` names them by their digests.

/// The page, in UTF-8.
pub const PAGE: &str = r#"<!doctype html>
<html lang="en">
<head>
<meta charset="utf-8">
<meta name="viewport" content="width=device-width,initial-scale=1">
<title>File transfers</title>
<link rel="icon" href="data:,">
<style>
:root{color-scheme:light dark;--bg:#fff;--fg:#1b1f23;--soft:#575e66;--line:#d3d8de;--panel:#f5f7f9;--track:#dde2e8;--use:#0072b2;--full:#a85b00;--bad:#b83a00;--mark:#fff3d6}
@media(prefers-color-scheme:dark){:root{--bg:#14171a;--fg:#e7eaed;--soft:#a3abb3;--line:#343b42;--panel:#1c2126;--track:#333b43;--use:#56b4e9;--full:#e69f00;--bad:#ff8f57;
--mark:#3a2f14}}
*{box-sizing:border-box}
body{margin:0 auto;max-width:1280px;padding:12px 16px 48px;background:var(--bg);color:var(--fg);font:15px/1.4 system-ui,sans-serif;font-variant-numeric:tabular-nums;
overflow-wrap:anywhere}
h1{font-size:20px;margin:0}h2{font-size:16px;margin:0}
header,.head{display:flex;flex-wrap:wrap;gap:4px 14px;align-items:baseline;margin-bottom:8px}
summary h2{display:inline}.soft{color:var(--soft);font-size:13px}
section{margin-top:22px}
button,input,select{font:inherit;color:inherit;background:var(--bg);border:1px solid var(--line);border-radius:4px;padding:2px 8px;max-width:100%}
button:disabled{color:var(--soft)}
button.name{color:var(--use);text-decoration:underline;overflow-wrap:anywhere}
:focus-visible{outline:3px solid var(--full);outline-offset:2px}
tr.on{background:var(--mark)}
#alerts{list-style:none;margin:8px 0 0;padding:0}
#alerts li{border-left:6px solid var(--full);background:var(--mark);padding:6px 10px;margin-top:6px}
#alerts li.bad{border-left-color:var(--bad)}
.tiles{display:grid;grid-template-columns:repeat(auto-fit,minmax(150px,1fr));gap:8px;margin-top:12px}
.tiles b{display:block;font-size:21px;line-height:1.2}
.tiles>*{text-align:left;background:var(--panel);border:1px solid var(--line);border-radius:4px;padding:6px 10px}
.bar{display:block;height:9px;background:var(--track);border-radius:2px;overflow:hidden;margin:3px 0}
.bar i{display:block;height:100%;background:var(--use)}
.bar.full i{background:repeating-linear-gradient(45deg,var(--full) 0 5px,var(--track) 5px 7px)}
.two{display:grid;grid-template-columns:minmax(0,3fr) minmax(0,2fr);gap:0 28px}
table{border-collapse:collapse;width:100%}
th,td{text-align:left;vertical-align:top;padding:4px 8px;border-bottom:1px solid var(--line)}
th{font-size:13px;white-space:nowrap}th button,button.name{border:0;padding:0;background:none;font-weight:inherit;text-align:left}
.n,.use,.st{white-space:nowrap}.n,.n button{text-align:right}.use{min-width:120px}
.failed{color:var(--bad)}
ol{margin:2px 0 0;padding:0;font-size:13px}
ol li{display:inline-block;margin-right:16px}
svg{display:block;width:100%;height:300px;background:var(--panel)}
svg text{fill:var(--soft);font-size:12px}svg .grid{stroke:var(--line)}svg .use{fill:var(--use)}svg .bad{fill:var(--bad)}svg .at{stroke:var(--fg);stroke-dasharray:3 3}
.stale main{opacity:.55}
button[aria-pressed=true],.tiles [aria-pressed=true]{background:var(--mark);border-color:var(--full)}
@media(max-width:720px){
.two{display:block}
body{padding:10px 10px 40px}.tiles{grid-template-columns:repeat(auto-fit,minmax(140px,1fr))}
table,tbody{display:block}thead,thead tr{display:flex;flex-wrap:wrap;gap:2px 12px}thead th{border:0;padding:2px 0;min-width:0}
tbody tr{display:flex;flex-wrap:wrap;gap:0 14px;border-bottom:1px solid var(--line);padding:5px 0}
tbody td{border:0;padding:1px 0;text-align:left}td.wide{flex:1 0 100%}
td[data-h]::before{content:attr(data-h) " ";color:var(--soft);font-size:12px}
thead:not(#lsort){display:none}
}
</style>
</head>
<body>
<header><h1>File transfers</h1><span id="vo"></span><span id="wrote"></span><span id="zone" class="soft"></span></header>
<ul id="alerts" aria-live="polite"></ul>
<noscript>Without script: see /metrics.</noscript>
<main>
<div id="states" class="tiles" role="group" aria-label="Jobs by state"></div>
<div id="meters" class="tiles"></div>
<div class="two">
<section><div class="head"><h2>Per minute</h2><span id="which"></span><button id="every">All links</button>
<label class="soft">Span <select id="span"><option value="60">1 hour</option><option value="600">1 day</option><option value="3600">1 week</option></select></label></div>
<div id="plot" tabindex="0" role="img" aria-describedby="read"></div><div id="read" class="soft" aria-live="polite"></div></section>
<section><div class="head"><h2>Failures by reason</h2><span class="soft">newest first</span></div>
<table><tbody id="failures"></tbody></table><div id="nofail" class="soft"></div></section>
</div>
<section><div class="head"><h2>Links</h2><label>Filter <input id="filter" type="search" size="22" autocomplete="off"></label><span id="shown" class="soft"></span></div>
<table><thead id="lsort"><tr></tr></thead><tbody id="links"></tbody></table><button id="more" hidden></button></section>
<section id="jobpart" hidden><div class="head"><h2 id="oh" tabindex="-1"></h2><button id="close">Close (Esc)</button></div>
<div id="facts"></div><table><tbody id="files"></tbody></table><div id="nojob" class="soft"></div></section>
<section><div class="head"><h2>Jobs</h2><span id="chosen"></span>
<button id="nofilter">No filter</button><button id="newest">Newest</button><button id="newer">Newer</button><button id="older">Older</button></div>
<table><tbody id="jobs"></tbody></table><div id="nojobs" class="soft"></div></section>
<section><details id="storages"><summary><h2>Storages</h2></summary>
<table><tbody id="ends"></tbody></table></details></section>
</main>
<script>
'use strict';
const $ = Object.fromEntries([...document.querySelectorAll('[id]')].map(e => [e.id, e])), {floor, max, min} = Math, focused = () => document.activeElement, EVERY = 2000,
  JOBS = 25, FIRST = 20, MORE = 100;
const MARK = {SUBMITTED: '○', ACTIVE: '▶', FINISHED: '✓', FINISHEDDIRTY: '◐', FAILED: '✕', CANCELED: '⊘', NOT_USED: '–'}, STATES = Object.keys(MARK).slice(0, 6);
const state = s => MARK[s] + ' ' + s;
// What is looked at. It stands in the address, so a reload keeps it.
const view = {source: '', destination: '', state: '', reason: '', after: '', job: '', span: '60', q: '', sort: 'active', up: ''};
for (const [k, v] of new URLSearchParams(location.hash.slice(1))) if (k in view) view[k] = v;
const query = o => new URLSearchParams(Object.entries(o).filter(e => e[1] !== ''));
const keep = () => history.replaceState(null, '', '#' + query(view));

// Texts, numbers, times. A name stands isolated, its slashes from left to right; a control or direction sign in it is shown by its number.
const name = t => t && '\u2068' + t.replace(/[\u0000-\u001f\u007f-\u009f\u061c\u200b-\u200f\u2028-\u202e\u2060-\u2069\ufeff]/g,
  c => '\\u{' + c.charCodeAt(0).toString(16) + '}').replace(/\//g, '/\u200e') + '\u2069';
const arrow = l => name(l.source) + ' → ' + name(l.destination);
const count = new Intl.NumberFormat('en-US', {maximumFractionDigits: 1}).format;
const bytes = n => { let i = 0; while (n >= 1023.95 && i < 6) { n /= 1024; i++; } return (i ? n.toFixed(1) : Math.round(n)) + ' ' + 'B KiB MiB GiB TiB PiB EiB'.split(' ')[i]; };
const two = n => String(floor(n)).padStart(2, '0');
const time = t => { if (!t || t > 8e12) return '–'; const d = new Date(t * 1000); return new Date(d - d.getTimezoneOffset() * 60000).toISOString().slice(0, 19).replace('T', ' ');
  };
const age = s => s < 120 ? max(0, s) + ' s' : s < 7200 ? floor(s / 60) + ' min' : s < 172800 ? floor(s / 3600) + ' h ' + two(s / 60 % 60) + ' min' : floor(s / 86400) + ' d';
const percent = (a, b) => b > 0 ? min(100, 100 * a / b) : 0;

// Nodes. Text goes in by textContent alone, and only where it differs.
const el = (tag, cls, text) => { const e = document.createElement(tag); if (cls) e.className = cls; if (text) e.textContent = text; return e; };
const put = (e, text) => { text = String(text); if (e.textContent !== text) e.textContent = text; };
const flag = (e, cls, on) => e.classList.toggle(cls, !!on);
const words = (a, sep) => a.filter(Boolean).join(sep);
const press = () => el('button', 'name');
function bar() { const e = el('span'); e.n = el('span'); e.b = el('span', 'bar'); e.i = e.b.appendChild(el('i')); e.append(e.n, e.b); return e; }
function fillBar(e, a, limit, text, full) { put(e.n, text); const w = percent(a, limit).toFixed(1) + '%'; if (e.i.style.width !== w) e.i.style.width = w; flag(e.b, 'full', full); }
const slots = (e, a, limit) => fillBar(e, a, limit, a + ' / ' + limit + (a >= limit ? ' full' : ''), a >= limit);
// A table's columns: key, heading, class, and what stands inside a cell.
function row(cols) { const r = el('tr'); r.p = {}; for (const [k, h, cls, inner] of cols) { const d = r.appendChild(el('td', cls)); if (cls !== 'wide') d.dataset.h = h;
  r.p[k] = inner ? d.appendChild(inner()) : d; } return r; }
// Draws a list by keys: nodes that stay are kept, so focus, selection and scroll stay too.
function list(parent, items, key, make, fill) {
  const old = parent.kept || new Map(), now = new Map(), focus = focused();
  let at = parent.firstChild;
  for (const item of items) {
    const k = key(item), node = old.get(k) || make(item);
    fill(node, item); now.set(k, node);
    if (node === at) at = at.nextSibling; else parent.insertBefore(node, at);
  }
  while (at) { const next = at.nextSibling; at.remove(); at = next; }
  parent.kept = now;
  if (focus !== focused() && focus.isConnected) focus.focus({preventScroll: true});
}

// The top: when the service last wrote, alerts, states, room.
let snap = null, lost = 0, links = new Map(), storages = new Map();
const rooms = () => [['Journal', snap.journal_bytes, snap.journal_limit_bytes, bytes], ['File rows', snap.rows, snap.rows_limit, count], ['Jobs', snap.jobs, snap.jobs_limit,
  count]];
function drawAlerts() {
  const a = [];
  if (lost) a.push(['bad', 'fts_monitor has not answered since ' + time(lost) + '. This is from before.']);
  if (snap) {
    const quiet = snap.now - snap.last_entry_time, {ACTIVE: run, SUBMITTED: wait} = snap.files_by_state;
    if (snap.damage) a.push(['bad', 'The journal is damaged at byte ' + count(snap.damage.offset) + '. Only what stood before it is shown.']);
    if (run + wait && quiet >= 120) a.push([quiet >= 600 ? 'bad' : '',
      'The service has not written for ' + age(quiet) + ', though ' + count(run) + ' files are active and ' + count(wait) + ' wait.']);
    for (const [what, n, limit, show] of rooms()) { const p = percent(n, limit); if (p >= 80) a.push([p >= 95 ? 'bad' : '', what + ' at ' + floor(p) + ' percent: ' + show(max(0,
      limit - n)) + ' left. When full, ' + (what === 'Journal' ? 'nothing can be recorded.' : 'submissions are refused.')]); }
  }
  list($.alerts, a, x => x[1].slice(0, 24), () => el('li'), (li, x) => { li.className = x[0]; put(li, (x[0] ? '✕ ' : '! ') + x[1]); });
  document.title = (a.length ? '(' + a.length + ') ' : '') + 'File transfers';
  flag(document.body, 'stale', lost);
}
function drawTop() {
  put($.vo, name(snap.vo_name));
  put($.wrote, snap.entries ? 'Service last wrote ' + time(snap.last_entry_time) + ', ' + age(snap.now - snap.last_entry_time) + ' ago' : 'The journal holds no entry');
  put($.zone, 'Times are local, ' + String(new Date()).match(/GMT\S+/) + (snap.restart_time ? '; service started ' + time(snap.restart_time) : ''));
  list($.states, STATES, s => s, s => { const b = el('button'); b.n = el('b'); b.append(b.n, state(s)); b.onclick = () => pick({state: view.state === s ? '' : s}); return b; },
    (b, s) => { put(b.n, count(snap.jobs_by_state[s] || 0)); b.ariaPressed = view.state === s; });
  list($.meters, rooms(), m => m[0], () => { const d = el('div'); d.e = d.appendChild(bar()); return d; },
    ({e}, [what, n, limit, show]) => { const p = percent(n, limit); fillBar(e, n, limit, what + ' ' + show(n) + ' of ' + show(limit) + ' (' + floor(p) + '\u00a0%)', p >= 80); });
}

// Links and storages.
const LINK = [['link', 'Link', 'wide', press], ['active', 'Slots in use', 'use', bar], ['submitted', 'Waiting', 'n'], ['finished', 'Finished', 'n'], ['failed', 'Failed', 'n'],
  ['canceled', 'Canceled', 'n'], ['copied_bytes', 'Copied', 'n'], ['last_report_time', 'Last report', 'n']];
const STORAGE = [['storage', 'Storage', 'wide'], ['outbound', 'Outbound', 'use', bar], ['inbound', 'Inbound', 'use', bar]];
const NO_LINK = {source: '', destination: ''};
let order = [], rows = FIRST;
const chosen = l => view.source === l.source && view.destination === l.destination;
function arrange() {
  const q = view.q.toLowerCase(), k = view.sort, s = view.up ? 1 : -1, text = (a, b) => a.key < b.key ? -1 : 1;
  order = [...links.values()].filter(l => !q || l.find.includes(q)).sort(k === 'link' ? (a, b) => -s * text(a, b) : (a,
    b) => s * (a[k] - b[k]) || b.submitted - a.submitted || text(a, b));
}
function fillLink(r, l) {
  const p = r.p, a = storages.get(l.source), b = storages.get(l.destination), on = chosen(l), wait = l.submitted && l.active < l.max_active;
  const why = !a || !b ? 'a storage is not in the settings'
    : wait && a.outbound_active >= a.outbound_max_active ? 'source is full' : wait && b.inbound_active >= b.inbound_max_active ? 'destination is full' : '';
  p.link.ariaPressed = on; put(r.why, ' ' + words([name(l.symbolicname), why], ' · '));
  slots(p.active, l.active, l.max_active);
  for (const k of ['submitted', 'finished', 'failed', 'canceled']) put(p[k], count(l[k]));
  flag(p.failed, 'failed', l.failed);
  put(p.copied_bytes, bytes(l.copied_bytes)); put(p.last_report_time, l.last_report_time ? age(snap.now - l.last_report_time) + ' ago' : '–');
}
function drawLinks(sort) {
  // The order rests while pointer or focus is in the table: no row moves away from under a hand.
  const rest = !sort && order.length && ($.links.matches(':hover') || $.links.contains(focused()));
  if (rest) order = order.map(l => links.get(l.key)).filter(Boolean); else arrange();
  list($.lsort.rows[0], LINK, c => c[0], ([k, h, cls]) => { const e = el('th', cls); e.b = e.appendChild(el('button'));
    e.b.onclick = () => { view.up = view.sort === k && !view.up ? '1' : ''; view.sort = k; keep(); drawLinks(true); }; return e; },
    (e, [k, h]) => { const on = view.sort === k, up = (k === 'link') !== !!view.up; put(e.b, h + (on ? up ? ' ▲' : ' ▼' : ''));
      e.ariaSort = !on ? 'none' : up ? 'ascending' : 'descending'; });
  list($.links, order.slice(0, rows), l => l.key, l => { const r = row(LINK), b = r.p.link; put(b, arrow(l)); b.onclick = () => pick(chosen(l) ? NO_LINK : {source: l.source,
    destination: l.destination}); r.why = b.parentNode.appendChild(el('span', 'soft')); return r; }, fillLink);
  const n = order.length; put($.shown, links.size ? min(rows,
    n) + ' of ' + count(n) + (view.q ? ' that match, of ' + links.size : '')
    + (snap.links_left_out ? '; ' + count(snap.links_left_out) + ' more are not sent' : '') + (rest ? '; order rests' : '') : 'No link is listed and none has a file.');
  $.more.hidden = n <= rows; put($.more, 'Show ' + min(MORE, n - rows) + ' more');
}
function drawStorages() {
  if ($.storages.open) list($.ends, snap.storages, s => s.storage, () => row(STORAGE), ({p}, s) => { put(p.storage, name(s.storage)); for (const d of ['outbound',
    'inbound']) slots(p[d], s[d + '_active'], s[d + '_max_active']); });
}

// Failures.
const FAILURE = [['reason', 'Reason', 'wide', press], ['files', 'Files', 'n'], ['reports', 'Reports', 'n'], ['newest', 'Newest', '', press]];
function drawFailures() {
  const f = [...snap.failures].sort((a, b) => b.last_time - a.last_time);
  list($.failures, f, g => g.reason, g => { const r = row(FAILURE), n = r.p.newest; n.onclick = () => openJob(n.job);
    r.p.reason.onclick = () => pick({reason: view.reason === g.reason ? '' : g.reason}); return r; },
    ({p}, g) => { put(p.reason, name(g.reason)); p.reason.ariaPressed = view.reason === g.reason; put(p.files, count(g.files));
      put(p.reports, count(g.reports)); p.newest.job = g.job_id; put(p.newest, time(g.last_time)); });
  put($.nofail, f.length ? 'Files: stand FAILED now. Reports: all, tried again or not. A reason chooses its jobs, a time opens one.' : 'No copy has failed.');
}

// The plot.
let hist = null, cursor = 0;
const LEFT = 76, HIGH = 105, at = i => hist.from + i * hist.step, inside = i => max(0, min(hist.n - 1, i)), place = t => inside(Math.round((t - hist.from) / hist.step));
const SVG = (p, tag, attrs, text = '') => { const e = document.createElementNS('http://www.w3.org/2000/svg', tag); for (const k in attrs) e.setAttribute(k, attrs[k]);
  e.textContent = text; p.append(e); return e; };
function nice(n, base) { let u = 1; while (u * base <= n) u *= base; return u * [1, 2, 5, 10, 20, 50, 100, 200, 500, 1024].find(m => u * m >= n); }
function drawPlot() {
  put($.which, view.source ? arrow(view) : 'all links'); $.every.hidden = !view.source;
  const box = $.plot, w = box.clientWidth; box.textContent = ''; if (!hist || w < 99) return;
  const {n} = hist, per = 60 / hist.step, wide = (w - LEFT - 8) / n, svg = SVG(box, 'svg', {viewBox: `0 0 ${w} 300`});
  const panel = (top, title, most, show, stacks) => {
    SVG(svg, 'text', {x: LEFT, y: top - 6}, title);
    for (const f of [0, .5, 1]) { const y = top + HIGH * (1 - f); SVG(svg, 'line', {class: 'grid', x1: LEFT, x2: w - 8, y1: y, y2: y}); SVG(svg, 'text', {x: LEFT - 6, y: y + 4,
      'text-anchor': 'end'}, show(most * f)); }
    for (let i = 0; i < n; i++) { let y = top + HIGH; for (const [cls, v] of stacks) if (v[i]) { const height = max(1, v[i] * per / most * HIGH); SVG(svg, 'rect', {class: cls,
      x: LEFT + i * wide, width: max(1, wide - 1), y: y -= height, height, opacity: i < n - 1 ? 1 : .55}); } }
  };
  const peak = v => per * max(...v);
  panel(24, 'Bytes verified per minute', nice(max(1024, peak(hist.bytes)), 1024), bytes, [['use', hist.bytes]]);
  panel(164, 'Files ended per minute (failed on top)', nice(max(2, peak(hist.finished.map((v, i) => v + hist.failed[i]))), 10), count, [['use', hist.finished], ['bad',
    hist.failed]]);
  for (let i = n - 1; i >= 0; i -= Math.ceil(n / max(2, floor(w / 110)))) SVG(svg, 'text', {x: LEFT + (i + .5) * wide, y: 290, 'text-anchor': i > n - 3 ? 'end' : 'middle'},
    hist.step < 3600 ? time(at(i)).slice(11, 16) : time(at(i)).slice(5, 10));
  const i = cursor ? place(cursor) : n - 2, x = LEFT + (i + .5) * wide;
  if (cursor) SVG(svg, 'line', {class: 'at', x1: x, x2: x, y1: 20, y2: 270});
  put($.read, time(at(i)).slice(0,
    16) + ': ' + bytes(hist.bytes[i] * per) + '/min, ' + count(hist.finished[i] * per) + ' finished/min, ' + count(hist.failed[i] * per) + ' failed/min. Left and Right move.');
}
function move(i) { cursor = at(inside(i)); drawPlot(); }
$.plot.onkeydown = e => { const d = {ArrowLeft: -1, ArrowRight: 1}[e.key]; if (d && hist) { e.preventDefault(); move((cursor ? place(cursor) : hist.n - 1) + d); } };
$.plot.onpointerdown = e => { if (hist) { const b = $.plot.getBoundingClientRect(); move(floor((e.clientX - b.left - LEFT) * hist.n / (b.width - LEFT - 8))); } };

// Jobs, and one job's files.
const JOB = [['job', 'Job', 'wide', press], ['state', 'State', 'st'], ['kind', 'Kind'], ['priority', 'Priority', 'n'], ['done', 'Files done', 'use', bar], ['failed', 'Failed',
  'n'], ['submit', 'Submitted']];
const FILE = [['id', 'File', 'n'], ['state', 'State', 'st'], ['size', 'Size', 'n'], ['what', 'Source, destination, what happened', 'wide', () => { const e = el('div');
  e.s = el('div'); e.d = el('span'); e.a = el('span', 'soft'); e.o = el('ol'); e.append(e.s, e.d, e.a, e.o); return e; }]];
let page = null, job = null, back = [], opener = null;
function drawJobs() {
  if (!page) return;
  list($.jobs, page.jobs, j => j.job_id, j => { const r = row(JOB); put(r.p.job, j.job_id); r.p.job.onclick = () => openJob(j.job_id); return r; }, (r, j) => {
    const p = r.p, f = j.files_by_state, all = Object.values(f).reduce((a, b) => a + b, 0), end = [f.FINISHED, f.FAILED];
    flag(r, 'on', view.job === j.job_id); put(p.state, state(j.job_state)); put(p.kind, j.kind); put(p.priority, j.priority);
    fillBar(p.done, end[0], all, end[0] + ' / ' + all, false); put(p.failed, end[1]); flag(p.failed, 'failed', end[1]); put(p.submit, time(j.submit_time)); });
  put($.chosen, words([view.state, view.source && arrow(view), view.reason && name(view.reason)], ', ') || 'all, newest first');
  put($.nojobs, page.jobs.length ? '' : page.next ? 'No job among those that were looked at; older ones stand behind them.' : view.after ? 'No older job.' : 'No job.');
  $.nofilter.hidden = !(view.state || view.source || view.reason); $.newest.disabled = $.newer.disabled = !view.after; $.older.disabled = !page.more && !page.next;
}
function drawJob() {
  const j = job && job.job_id === view.job ? job : null;
  $.jobpart.hidden = !view.job; put($.oh, 'Job ' + name(view.job)); put($.nojob, job === 0 ? 'No job has this id.' : j ? '' : 'Asking …');
  put($.facts, j ? words([state(j.job_state), j.kind, 'priority ' + j.priority, 'retries ' + j.retry, 'submitted ' + time(j.submit_time)], ' · ') : '');
  list($.files, j ? j.files : [], f => f.file_id, () => row(FILE), ({p}, f) => {
    // What happened, and why the file stands as it does where no event says it.
    const what = f.events.map((e, i) => [f.events_left_out + i, words([time(e.time), e.event, e.attempt && 'attempt ' + e.attempt, e.bytes !== null && bytes(e.bytes),
      name(e.reason)], ' · '), e.event.startsWith('failed')]), last = f.events[f.events.length - 1];
    if (f.events_left_out) what.unshift(['older', count(f.events_left_out) + ' older events are not sent', false]);
    if (f.reason && f.reason !== last.reason) what.push(['stands', name(f.reason), true]);
    put(p.id, f.file_id); put(p.state, state(f.file_state)); put(p.size, f.filesize ? bytes(f.filesize) : 'not told'); put(p.what.s, name(f.source_surl)); put(p.what.d,
      '→ ' + name(f.dest_surl));
    put(p.what.a, ' ' + words([name(f.activity), f.cancel_asked && 'cancel asked', f.file_state === 'SUBMITTED' && f.not_before > snap.now && 'not before ' + time(f.not_before)],
      ', '));
    list(p.what.o, what, x => x[0], () => el('li'), (li, x) => { li.className = x[2] ? 'failed' : ''; put(li, x[1]); }); });
}
async function openJob(i) { opener = focused(); view.job = i; job = null; asked.job = ''; keep(); drawJob(); drawJobs(); await look(); $.oh.focus({preventScroll: true});
  $.jobpart.scrollIntoView(); }
function closeJob() { view.job = ''; keep(); drawJob(); drawJobs(); if (opener && opener.isConnected) opener.focus(); }
function pick(change) { Object.assign(view, {after: ''}, change); back = []; keep(); if (snap) drawAll(); look(); }

// Asking: the snapshot each time, the rest only where the journal grew or the question changed.
const asked = {};
async function ask(path) { const r = await fetch(path, {signal: AbortSignal.timeout(10000)}); if (r.status === 404) return 0; if (!r.ok) throw r; return r.json(); }
async function renew(what, path, take, also = '') { const key = [path, snap.fold_time, snap.entries, also].join(' '); if (asked[what] !== key) { const got = await ask(path);
  asked[what] = key; take(got); } }
async function round() {
  const {source, destination, after, span} = view, s = await ask('snapshot');
  links = new Map();
  for (const l of s.links) { l.key = JSON.stringify([l.source, l.destination]); l.find = [l.source, '→', l.destination, l.symbolicname].join(' ').toLowerCase(); links.set(l.key,
    l); }
  storages = new Map(s.storages.map(x => [x.storage, x])); snap = s; lost = 0; drawAll();
  await renew('history', 'history?' + query({source, destination, step: span, count: {600: 144, 3600: 168}[span] || 60}), h => { hist = h; h.n = h.bytes.length; drawPlot(); },
    floor(s.now / span));
  await renew('jobs', 'jobs?' + query({state: view.state, source, destination, reason: view.reason, after, newest: 'true', limit: JOBS}), p => { page = p; drawJobs(); });
  if (view.job) await renew('job', 'jobs/' + encodeURIComponent(view.job), j => { job = j; drawJob(); });
}
let going = null, again = false;
function look() {
  again = true;
  return going = going || (async () => { while (again) { again = false; try { await round(); } catch (e) { lost = lost || (snap ? snap.now : Date.now() / 1000); drawAlerts();
    } } going = null; })();
}
function drawAll() { drawTop(); drawAlerts(); drawLinks(); drawStorages(); drawFailures(); drawJobs(); drawJob(); }
const next = async () => { if (!document.hidden) await look(); setTimeout(next, EVERY); };

for (const [body, cols] of [['failures', FAILURE], ['jobs', JOB], ['files', FILE], ['ends', STORAGE]]) { const r = $[body].parentNode.createTHead().insertRow(); for (const [, h,
  cls] of cols) r.append(el('th', cls, h)); }
$.filter.value = view.q; $.filter.oninput = () => { view.q = $.filter.value; rows = FIRST; keep(); drawLinks(true); };
$.span.value = view.span; $.span.onchange = () => { view.span = $.span.value; cursor = 0; keep(); look(); };
$.more.onclick = () => { rows += MORE; drawLinks(true); };
$.every.onclick = () => pick(NO_LINK);
$.nofilter.onclick = () => pick({...NO_LINK, state: '', reason: ''});
$.newest.onclick = () => pick({});
const walk = to => { view.after = to || ''; keep(); look(); };
$.newer.onclick = () => walk(back.pop());
$.older.onclick = () => { back.push(view.after); walk(page.more ? page.jobs[page.jobs.length - 1].job_id : page.next); };
$.close.onclick = closeJob; onkeydown = e => { if (e.key === 'Escape' && view.job) closeJob(); };
$.storages.ontoggle = () => { if (snap) drawStorages(); };
document.oncopy = e => { if (e.target !== $.filter) { e.preventDefault(); e.clipboardData.setData('text/plain', String(getSelection()).replace(/[\u200e\u2068\u2069]/g, '')); } };
onresize = drawPlot; document.onvisibilitychange = () => { if (!document.hidden) look(); };
next();
</script>
</body>
</html>
"#;

/// What a browser may do with it (Content Security Policy Level 3): its one style and its one script, by their SHA-256, and requests to where it
/// comes from. A change of either has another digest.
pub const POLICY: &str = "default-src 'none'; connect-src 'self'; img-src data:; base-uri 'none'; \
     form-action 'none'; frame-ancestors 'none'; style-src 'sha256-OywGh4PgH2AI8mr04h/HDPkKoyvevLCVavUskfEFPr4='; script-src 'sha256-tNxZwEjjJFDSU4WHefJ3TJ3NZf72SCrEyqaoW7VvSAw='";
