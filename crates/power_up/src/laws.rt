//! What the registers of all instances have at power-up.
ghost use Rattle.power_up.specs.PowerUp.{PowerUpIsOfInstances};

/// Where paths lead to the modules of their instances, the bits at power-up are those of each instance in turn.
pub fn instances()
    ensures { PowerUpIsOfInstances }
{}
