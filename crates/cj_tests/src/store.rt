// Tests of the store: a worked row of calls, two thousand Jobs, and plans that are made in turn.
#[cfg(test)]
mod boxed;
#[cfg(test)]
mod calls;
#[cfg(test)]
mod drafts;
#[cfg(test)]
mod listed;
#[cfg(test)]
mod planned;
#[cfg(test)]
mod rows;
#[cfg(test)]
mod told;
