//! How the page looks.

/// The style of a page, in light and dark, and on paper. The charts have their own.
pub const STYLE: &[u8] = br#"<style>
:root{color-scheme:light dark;--line:#d0d7de;--ink:#1f2328;--soft:#57606a;--blue:#0969da;--fill:#ddf4ff;--paper:#fff}
@media (prefers-color-scheme:dark){:root{--line:#30363d;--ink:#e6edf3;--soft:#9198a1;--blue:#58a6ff;--fill:#0c2d6b;--paper:#0d1117}}
body{margin:24px auto;max-width:1400px;padding:0 20px;font:15px system-ui,sans-serif;color:var(--ink);background:var(--paper)}
table{border-collapse:collapse}th,td{border:1px solid var(--line);padding:3px 9px;text-align:left;font-weight:normal}thead th{font-weight:bold}
td,code,pre,output,#events{font-family:"DejaVu Sans Mono",Menlo,Consolas,"Liberation Mono",monospace;font-size:13px}code{overflow-wrap:anywhere}
.controls{display:flex;flex-wrap:wrap;gap:10px;align-items:center;position:sticky;top:0;padding:8px 0;background:var(--paper);z-index:1}
.controls input{flex:1;min-width:220px}.controls output{flex-basis:100%}.columns{display:flex;gap:20px;align-items:flex-start}
#charts{overflow:auto;max-width:100%;flex:1}#values{flex:none}#values .forced{color:#8250df;font-weight:bold}#values .changed{background:var(--fill)}
#signals{overflow-x:auto;margin-top:16px}img{max-width:100%}canvas{cursor:crosshair}
.sign p{display:flex;gap:12px;margin:26px 0}.sign span{flex:1;max-width:480px;border-bottom:1px solid var(--ink)}
@media print{.controls button,.controls input{display:none}.controls{position:static}section{break-inside:avoid}body{margin:0}}
@media (max-width:700px){.columns{flex-direction:column}}
</style>
"#;
