// An object as a mirror keeps it.
use cj_base::Text;
use cj_types::Key;

/// An object as a mirror keeps it.
pub(crate) struct Entry {
    /// Its JSON text.
    pub text: Text,
    /// The CronJob that it is, or that its controller names.
    pub cron: Option<Key>,
    /// Whether its jobTemplate was too large to be kept.
    pub is_cut: bool,
}

impl Drop for Entry {
    fn drop(self) {
        let Entry {
            text,
            cron,
            is_cut: _,
        } = self;
        drop(text);
        drop(cron);
    }
}
