// Histories of calls on a book, through the library.

#![tactic(auto)]

#[cfg(test)]
mod sheets;
#[cfg(test)]
mod stores;
#[cfg(test)]
mod test_book;
#[cfg(test)]
mod tests;
#[cfg(test)]
mod watched;
