// What stands between the style, the epoch, the connections, the rows of the subjects and the script. Its ids have a capital each, as no
// name of a subject has, so that a browser that goes to the fragment of a subject stays where it is.

pub(crate) const BEFORE_EPOCH: &str = r##"</style>
</head>
<body>
<main>
<header><h1>rx<b>line</b></h1><span id="State" class="pill" role="status"></span><span>epoch <span id="Epoch">"##;

pub(crate) const BEFORE_SESSIONS: &str =
    r##"</span></span><span>connections: <span id="Sessions">"##;

pub(crate) const BEFORE_HTTP: &str = r##"</span> of sessions, <span id="Http">"##;

pub(crate) const BEFORE_ROWS: &str = r##"</span> of HTTP</span></header>
<section>
<table class="numbers">
<thead><tr><th>subject</th><th>kind</th><th>state</th><th>items</th><th>items a second</th><th>observers</th><th>waiting</th><th>refused</th><th>memory</th></tr></thead>
<tbody id="Subjects">
"##;

pub(crate) const BEFORE_SCRIPT: &str = r##"</tbody>
</table>
<noscript><p class="hint">So it stood when the page was loaded: a browser that runs scripts looks again each second.</p></noscript>
</section>
<div id="Chosen" hidden>
<section>
<form id="Emit"><h2 id="Title"></h2><span id="Said" role="status"></span><label>Text <input id="Text" maxlength="1024" autocomplete="off"></label><button>Emit</button></form>
<div id="Lines"></div>
<div id="Log"></div>
<form id="Add">
<label>Strategy <select id="Strategy"><option>LATEST:1</option><option>LATEST:16</option><option>DROP:0</option><option>DROP:16</option><option>BOUNDED:16</option><option>BUFFER</option></select></label>
<label>Pace <select id="Pace"><option value="0">as fast as it can</option><option value="200">5 a second</option><option value="500" selected>2 a second</option><option value="2000">0.5 a second</option></select></label>
<button id="More">Add a line</button>
<small>A marble is an item; &minus;3 says that three before it were missed.</small>
</form>
</section>
<section id="Held">
<table>
<thead><tr><th>observer</th><th>strategy</th><th>errors</th><th>waiting</th><th>owed</th></tr></thead>
<tbody id="Observers"></tbody>
</table>
<p id="Nobody" class="hint" hidden>Nobody observes this subject.</p>
</section>
</div>
</main>
<div id="Tip" hidden></div>
<script>"##;

pub(crate) const END: &str = r##"</script>
</body>
</html>
"##;
