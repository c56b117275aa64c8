mod databases;
mod orders;
