//! What is proved of a use of `devices`, `seal`, `publicsuffix`, `place_index`, `cookie_text`, `cookie` and
//! `cookie_store`, and the examples of their READMEs.
#![tactic(auto)]

#[cfg(test)]
mod asking_tests;
#[cfg(test)]
mod cipher_tests;
#[cfg(test)]
mod cookie_readme;
#[cfg(test)]
mod cookie_tests;
#[cfg(test)]
mod cookie_text_readme;
#[cfg(test)]
mod index_rows;
#[cfg(test)]
mod index_tests;
#[cfg(test)]
mod readme_tests;
