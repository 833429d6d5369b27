// Tests of manifests that no command shows: what each reader says of the other's kind, what is
// said, and the written texts.
#[cfg(test)]
mod answers;
#[cfg(test)]
mod reading;
#[cfg(test)]
mod writing;
