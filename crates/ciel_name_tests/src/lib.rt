// Worked rows of bytes and names: of values, descriptions and objects. They stand in a crate of their own, since a crate with
// tests is proved twice. What a row is about is made by its number, so that each call stands in one helper.
#![tactic(auto)]

#[cfg(test)]
mod descriptions;
#[cfg(test)]
mod hexadecimal;
#[cfg(test)]
mod objects;
#[cfg(test)]
mod reads;
#[cfg(test)]
mod values;
