mod devices;
mod ends;
mod faults;
mod noted;
mod office;
mod stations;
mod system;
