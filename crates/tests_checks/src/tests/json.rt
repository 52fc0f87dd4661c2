mod case;
mod changes;
mod floats;
mod helpers;
mod joined;
mod kinds;
mod pointers;
