// Pictures in the page. Their style is in its head, once for all of them.
ghost use Rattle.std.specs.Prelude.{◌≡◌, IfErr};
ghost use Rattle.cj_base.specs.declared.refusal.Refusal.TheVariants.{OutOfMemory};

use crate::html::text::push_between;
use cj_cluster::Cluster;
use cj_picture::{Window, cluster_picture};
use cj_types::Refusal;
use std::alloc::{AllocError, Global};

// What is before the style of a picture, the style, and what is behind it.
fn parted(picture: &str) -> (&str, &str, &str) {
    let (before, rest) = picture.split_once("<style>").unwrap_or((picture, ""));
    let (style, behind) = rest.split_once("</style>\n").unwrap_or(("", rest));
    (before, style, behind)
}

/// A picture without its style, in a part that can be moved to and fro where it is too wide.
pub(crate) fn push_picture(
    text: &mut String,
    called: &str,
    picture: &str,
) -> Result<(), AllocError> {
    let (before, _, behind) = parted(picture);
    push_between(
        text,
        "<div class=\"wide\" tabindex=\"0\" role=\"region\" aria-label=\"",
        called,
        "\">\n",
    )?;
    text.push_str(before)?;
    text.push_str(behind)?;
    text.push_str("</div>\n")
}

/// The style of pictures, which all have: that of one of nothing.
pub(crate) fn push_style(alloc: Global, text: &mut String) -> Result<(), Refusal>
    ensures err { IfErr result (λ e. e ≡ OutOfMemory) }
{
    let nothing = Cluster::new(alloc);
    let none = Vec::new(alloc);
    let picture = cluster_picture(alloc, &nothing, Window::ALL, none.as_slice(), "", None)?;
    let (_, style, _) = parted(picture.as_str());
    text.push_str(style)?;
    Ok(text.push_str("\n")?)
}
