// Names with their namespaces.
ghost use Rattle.std.specs.Prelude.{◌≡◌};
ghost use Rattle.cj_control.specs.SentFor.{name_in, namespace_in};

/// The namespace and the name in NAMESPACE/NAME.
pub fn parts(full: &str) -> (&str, &str)
    ensures namespace { result.0.now ≡ namespace_in full.now }
    ensures name { result.1.now ≡ name_in full.now }
{
    match full.split_once('/') {
        Some(parts) => parts,
        None => (full, ""),
    }
}
