//! What no clause says: that books and gates do what they are for while there is memory, each through its
//! trait's bound.

mod books;
mod gates;
