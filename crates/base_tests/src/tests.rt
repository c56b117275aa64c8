mod names;
mod orders;
mod real;
mod streams;
