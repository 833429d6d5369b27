// Texts that are no JSON and that people have by mistake.
ghost use Rattle.std.specs.Prelude.{◌≡◌, codes};
ghost use Rattle.cj_answers.specs.Shapes.{encoding_words, is_message, is_table, is_template, shape_words};
ghost use Rattle.cj_answers.specs.Suggestion.{begins};

/// Whether bytes begin so.
pub(crate) fn begins(bytes: &[u8], front: &[u8]) -> bool
    ensures { result ≡ begins front.now bytes.now }
{
    bytes.strip_prefix(front).is_some()
}

// What `kubectl get` prints without `-o json`.
fn is_table(bytes: &[u8]) -> bool
    ensures { result ≡ is_table bytes.now }
{
    begins(bytes, b"NAME ") || begins(bytes, b"NAMESPACE ")
}

// What kubectl says where it has no objects.
fn is_message(bytes: &[u8]) -> bool
    ensures { result ≡ is_message bytes.now }
{
    begins(bytes, b"Error from server")
        || begins(bytes, b"error: ")
        || begins(bytes, b"The connection to the server")
        || begins(bytes, b"Unable to connect")
        || begins(bytes, b"No resources found")
}

// What Helm makes manifests of.
fn is_template(bytes: &[u8]) -> bool
    ensures { result ≡ is_template bytes.now }
{
    begins(bytes, b"{{")
}

// How the bytes have to be read before they are text.
fn encoding_words(bytes: &[u8]) -> &'static str
    ensures { result.now ≡ encoding_words bytes.now }
{
    if begins(bytes, b"\xff\xfe") || begins(bytes, b"\xfe\xff") {
        "it is UTF-16, as PowerShell writes it; iconv -f UTF-16 -t UTF-8 FILE makes UTF-8 of it\n"
    } else if begins(bytes, b"\x1f\x8b") {
        "it is packed by gzip; gunzip -c FILE unpacks it, and - in the place of FILE reads that\n"
    } else {
        ""
    }
}

/// What is said of a text that people have by mistake; nothing of others.
pub fn shape_words(bytes: &[u8]) -> &'static str
    ensures { result.now ≡ shape_words bytes.now }
{
    if is_table(bytes) {
        "it is kubectl's table; kubectl get -o json prints JSON\n"
    } else if is_message(bytes) {
        "it is a message of kubectl, and no object\n"
    } else if is_template(bytes) {
        "it is a template of Helm; helm template . | cronsim check - checks what it makes\n"
    } else {
        encoding_words(bytes)
    }
}
