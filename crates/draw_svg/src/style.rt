// How the parts of a picture look.

/// How the parts of a text look.
pub const STYLE: &str = "<style>
text{font:10px ui-monospace,'DejaVu Sans Mono',Menlo,Consolas,monospace;fill:#2b3a46}
.title{font:600 15px system-ui,'DejaVu Sans',Helvetica,Arial,sans-serif;fill:#1d2a33}
.note,.lane text{font:11px system-ui,'DejaVu Sans',Helvetica,Arial,sans-serif;fill:#5c6b77}
svg{background:#fff}.lane rect{fill:#f7f9fa}
.bar{fill:#d7e5f0;stroke:#5e87a8}.number{font-size:9px;fill:#5e87a8}.number.long{font-size:6.8px}
.pale .bar{fill:#f3f4f5;stroke:#d3d9dd}.pale text{fill:#b3bcc3}
.wrong .bar{fill:#f6d5d0;stroke:#b23a2e;stroke-width:1.5}.wrong text{fill:#b23a2e;font-weight:600}
.stripes{stroke:#b23a2e;stroke-width:17;stroke-dasharray:2 6;opacity:.45}.wrong .number{stroke:#f6d5d0;stroke-width:3;paint-order:stroke}
.mark circle{fill:#1f5673;stroke:#fff}.mark text{fill:#fff;font-size:7.5px;text-anchor:middle}.mark text.long{font-size:5.5px}
</style>
";
