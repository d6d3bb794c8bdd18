// Examples of the media, of a memory and of its lives, worked out by hand and run.
#![tactic(auto)]

#[cfg(test)]
mod faults;
#[cfg(test)]
mod kinds;
#[cfg(test)]
mod life;
#[cfg(test)]
mod tests;
