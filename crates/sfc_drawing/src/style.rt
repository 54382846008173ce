//! How all is drawn: in light and dark.

/// The style of a drawing, with a light and a dark scheme.
pub const STYLE: &[u8] = b"<style>\n\
    .paper{fill:#fff}.box,.cell{fill:#fff;stroke:#24292f;stroke-width:1.4}.cell{stroke-width:1}.l{fill:none;stroke:#24292f;stroke-width:1.4}.bar,.head{fill:#24292f}\n\
    text{fill:#1f2328;font:12px \"DejaVu Sans Mono\",Menlo,Consolas,\"Liberation Mono\",monospace}.n{font-weight:bold}.mid{text-anchor:middle}.end{text-anchor:end}\n\
    .declared{font-style:italic}.q,.time{fill:#57606a;font-size:10px}.token{display:none;fill:#9a6700}.on>.token{display:inline}.ran>.cell{fill:#dafbe1}\n\
    .on>.box{fill:#ffedb3;stroke:#9a6700;stroke-width:2}.on>.inner{stroke:#9a6700}.on>.time{fill:#7d4e00}.enabled>.bar{fill:#bf8700}\n\
    .fired>.bar,.fired>text{fill:#cf222e}.forced>.cell{stroke:#8250df}.forced>text{fill:#8250df;font-weight:bold}\n\
    .never>.box,.never>.cell,.never>.inner{stroke-dasharray:4 3}.never>text{fill:#cf222e}\n\
    .never>.box,.never>.cell,.never>.inner,.never>.bar{stroke:#cf222e}.never>.bar{fill:#fff}\n\
    @media (prefers-color-scheme:dark){.paper{fill:#0d1117}.box,.cell{fill:#161b22;stroke:#c9d1d9}.l{stroke:#c9d1d9}.bar,.head{fill:#c9d1d9}text{fill:#e6edf3}\n\
    .q,.time{fill:#9198a1}.token{fill:#e3b341}.on>.box{fill:#3d2e00;stroke:#e3b341}.on>.inner{stroke:#e3b341}.on>.time{fill:#f2cc60}.ran>.cell{fill:#12361d}\n\
    .enabled>.bar{fill:#e3b341}.fired>.bar,.fired>text{fill:#ff7b72}.forced>.cell{stroke:#d2a8ff}.forced>text{fill:#d2a8ff}\n\
    .never>.box,.never>.cell,.never>.inner,.never>.bar{stroke:#ff7b72}.never>.bar{fill:#0d1117}.never>text{fill:#ff7b72}}\n\
    </style>\n\
    ";
