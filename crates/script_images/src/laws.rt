//! A law of stops: a contract of a function that does nothing.
ghost use Rattle.script_images.specs.Playing.{StopLaw};

/// A machine that runs leaves at a stop what the line `crash kept` leaves: its device with each write done. So what is
/// acknowledged by then is kept by the next recovery ([`crash_law`](script_play::crash_law), [`play_law`](script_play::play_law)).
pub fn stop_law()
    // What is acknowledged stays. Where the machine runs at the script's end, what is left is what the line `crash
    // kept` leaves.
    ensures { StopLaw }
{}
