// Tests of zones and due times: what no command shows.
#[cfg(test)]
mod counts;
#[cfg(test)]
mod lower_ends;
#[cfg(test)]
mod windows;
#[cfg(test)]
mod zone_files;
#[cfg(test)]
mod zones;
