//! The style sheet of the page, and what the page may load.

/// The style sheet: one line, of which `POLICY` has the hash. On a narrow screen each cell is a line, with the title of
/// its column before it; the headers of columns are then out of sight, and not out of the tree. Of several blocks of
/// rows a browser lays out those that come near to what is in sight.
pub const STYLE: &str = "\
    :root{color-scheme:light dark;--ink:#1b1c1f;--paper:#fff;--line:#cfd0d6;--band:#f3f3f6;--mark:#8f3500}\
    @media (prefers-color-scheme:dark){:root{--ink:#e9e9ec;--paper:#15161a;--line:#3b3c44;--band:#202127;\
    --mark:#ffb27a}}@media print{:root{color-scheme:light;--ink:#000;--paper:#fff;--line:#888;--band:#fff;--mark:#000}}\
    *{box-sizing:border-box}body{margin:0;padding:1rem clamp(.75rem,3vw,2.5rem);font:1rem/1.45 system-ui,sans-serif;\
    color:var(--ink);background:var(--paper)}h1{font-size:1.5rem;margin:0 0 1rem;overflow-wrap:anywhere}h2{\
    font-size:1.15rem;margin:1.5rem 0 .5rem}.region{overflow-x:auto;position:relative}.region:focus-visible,\
    summary:focus-visible{outline:2px solid var(--mark)}table{border-collapse:collapse;width:100%;\
    font-variant-numeric:tabular-nums}th,td{padding:.35rem .6rem;text-align:start;vertical-align:top;\
    border-bottom:1px solid var(--line);overflow-wrap:anywhere}thead th{background:var(--band);white-space:nowrap}\
    tbody th{font-weight:600}#catalogues~.region td:not(:last-child),:is(#records,#new,#changed,\
    #gone)~.region td:is(:nth-child(1),:nth-child(3),:nth-child(6)){overflow-wrap:normal}.differs{\
    background:var(--band)}.differs td:first-child{box-shadow:inset .25rem 0 var(--mark)}.other{\
    outline:1.5px dashed var(--mark);outline-offset:-2px}summary.other{outline-offset:1px}strong{display:block;\
    color:var(--mark);font-size:.85rem}meter{width:6rem}ul{margin:0;padding-inline-start:1.1rem}summary{\
    width:fit-content;cursor:pointer;color:var(--mark);font-size:.85rem}details p{margin:0;\
    text-indent:2ch hanging each-line;font:.85rem/1.4 ui-monospace,monospace;white-space:pre-wrap}@media screen{\
    :is(#records,#new,#changed,#gone)~.region :is(table,tbody){display:block}tbody:not(:only-of-type){\
    content-visibility:auto;contain-intrinsic-size:auto 200rem}}@media screen and (min-width:52.01rem){:is(#records,\
    #new,#changed,#gone)~.region thead{display:block}:is(#records,#new,#changed,#gone)~.region tr{display:grid;\
    grid-template-columns:5.5rem minmax(8.5rem,1.7fr) 4rem minmax(0,3fr) minmax(0,1.9fr) 10rem minmax(0,1.2fr)}}\
    @media screen and (max-width:52rem){thead{position:absolute;width:1px;height:1px;overflow:hidden;\
    clip-path:inset(50%)}table,tbody,tbody tr,tbody th,td{display:block}tbody tr{padding:.5rem 0;\
    border-bottom:1px solid var(--line)}tbody th,td{border-bottom:0;padding:.1rem .5rem}\
    #catalogues~.region td:not(:last-child),:is(#records,#new,#changed,#gone)~.region td:nth-child(-n+3){\
    display:inline-block}:is(#records,#new,#changed,#gone)~.region td:nth-child(4){font-weight:600}details{\
    font-weight:400}#catalogues~.region td:empty,:is(#records,#new,#changed,#gone)~.region td:empty:not(.other){\
    display:block;padding:0}td:is(.other,:not(:empty))::before{font-size:.8rem;opacity:.75}\
    #catalogues~.region td:nth-child(2)::before{content:'Found ';content:'Found '/''}\
    #catalogues~.region td:nth-child(3)::before{content:'Shown ';content:'Shown '/''}\
    #catalogues~.region td:nth-child(4)::before{content:'Refused ';content:'Refused '/''}\
    #catalogues~.region td:nth-child(5)::before{content:'Missing ';content:'Missing '/''}:is(#records,#new,#changed,\
    #gone)~.region td:nth-child(1)::before{content:'Position ';content:'Position '/''}:is(#records,#new,#changed,\
    #gone)~.region td:nth-child(3)::before{content:'Year ';content:'Year '/''}:is(#records,#new,#changed,\
    #gone)~.region td:nth-child(6)::before{content:'ISBN ';content:'ISBN '/''}:is(#records,#new,#changed,\
    #gone)~.region td:nth-child(7)::before{content:'Copies ';content:'Copies '/''}td:empty:not(.other)::before{\
    display:none}}@media print{body{padding:0;font-size:10pt}.region{overflow:visible}tr{break-inside:avoid}h2{\
    break-after:avoid}details:not([open]){display:none}}";

/// What the page may load (Content Security Policy Level 3): nothing; and which style sheet it may use, by the SHA-256
/// of `STYLE` in base64.
pub const POLICY: &str =
    "default-src 'none'; style-src 'sha256-V+LxJMy5S068n6uIor4JmjrZ3VrtVMCf3oAi9zHRUE4='";
