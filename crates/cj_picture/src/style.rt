/// How the parts look, on light and on dark pages. Colours are in classes, with a rule for dark
/// pages.
pub(crate) const STYLE: &str =
    "<style>text{font:12px ui-monospace,SFMono-Regular,Menlo,Consolas,monospace}.h{font-weight:600}.skip{stroke-width:2;fill:none}.open{opacity:.75}.ill{stroke-width:2}text{fill:#1b1f24}.dim{fill:#656d76}.grid{stroke:#d8dee4}.lane{fill:#f6f8fa}.bg{fill:#fff}.done{fill:#2da44e}.fail{fill:#cf222e}.run{fill:#0969da}.drop{fill:#8250df}.heat{fill:#0969da}.due{stroke:#656d76}.skip{stroke:#bf8700}.ill{stroke:#bf8700}@media (prefers-color-scheme:dark){text{fill:#e6edf3}.dim{fill:#8b949e}.grid{stroke:#30363d}.lane{fill:#161b22}.bg{fill:#0d1117}.done{fill:#3fb950}.fail{fill:#f85149}.run{fill:#58a6ff}.drop{fill:#bc8cff}.heat{fill:#58a6ff}.due{stroke:#8b949e}.skip{stroke:#d29922}.ill{stroke:#d29922}}</style>\n";

/// What the colours of a run mean, at the right above the lanes.
pub(crate) const RUN_LEGEND: &str =
    "<rect class=\"done\" x=\"480\" y=\"31\" width=\"10\" height=\"10\" rx=\"2\"/><text class=\"dim\" x=\"494\" y=\"40\">Complete</text>\n<rect class=\"fail\" x=\"580\" y=\"31\" width=\"10\" height=\"10\" rx=\"2\"/><text class=\"dim\" x=\"594\" y=\"40\">Failed</text>\n<rect class=\"drop\" x=\"664\" y=\"31\" width=\"10\" height=\"10\" rx=\"2\"/><text class=\"dim\" x=\"678\" y=\"40\">dropped</text>\n<rect class=\"run\" x=\"756\" y=\"31\" width=\"10\" height=\"10\" rx=\"2\"/><text class=\"dim\" x=\"770\" y=\"40\">still runs</text>\n<path class=\"skip\" d=\"M870 33l6 6m0 -6l-6 6\"/><text class=\"dim\" x=\"884\" y=\"40\">no Job</text>\n";

/// What those of a cluster mean.
pub(crate) const CLUSTER_LEGEND: &str =
    "<rect class=\"done\" x=\"540\" y=\"31\" width=\"10\" height=\"10\" rx=\"2\"/><text class=\"dim\" x=\"554\" y=\"40\">Complete</text>\n<rect class=\"fail\" x=\"640\" y=\"31\" width=\"10\" height=\"10\" rx=\"2\"/><text class=\"dim\" x=\"654\" y=\"40\">Failed</text>\n<rect class=\"run\" x=\"724\" y=\"31\" width=\"10\" height=\"10\" rx=\"2\"/><text class=\"dim\" x=\"738\" y=\"40\">still runs</text>\n<path class=\"skip\" d=\"M840 33l6 6m0 -6l-6 6\"/><text class=\"dim\" x=\"854\" y=\"40\">a finding</text>\n";
