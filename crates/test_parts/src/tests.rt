mod cells;
mod counts;
mod falls;
mod lists;
mod names;
mod own_lists;
mod pages;
mod states;
