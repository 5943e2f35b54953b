// One round: every slot once.
ghost use Rattle.std.specs.Prelude.{◌≡◌, ℕ, ◌≤◌, ◌<◌, get_or};
ghost use Rattle.policy.specs.Below.{sum_below};
ghost use Rattle.policy.specs.Limits.{most_ticks};

pub fn round_ticks(ticks: &[u16; 32], slots: u8) -> u32
    requires { (slots ≤ 32) × ((i : ℕ) → i < slots → get_or ticks.now i 0 ≤ most_ticks) }
    ensures { result ≡ sum_below slots (λ i. get_or ticks.now i 0) }
{
    let mut sum = 0;
    for i in 0..slots as usize {
        sum += ticks[i] as u32;
    }
    sum
}
