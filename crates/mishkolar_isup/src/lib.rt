// What a gateway in C or Rust calls of the box for the old exchange: numbers, byte slices and lent arrays only,
// since the names and signatures stand in include/mishkolar_isup.h.
#![tactic(auto)]

ghost use Rattle.std.specs.Prelude.{◌≡◌, not, eqb};
ghost use Rattle.isup.specs.Forward.{produced};
ghost use Rattle.isup.specs.Backward.{decoded, status_for};
ghost use Rattle.mishkolar_isup.specs.Numbers.{Gives, Calls};

#[unsafe(no_mangle)]
pub extern "C" fn mishkolar_isup_parameter(
    message: &[u8],
    code: &[u8],
    home: u64,
    parameter: &mut [u8; 10],
    reason: &mut u64,
    reply: &mut u64,
    detail: &mut u64,
    missing: &mut u64,
) -> usize
    ensures { Gives (produced message.now code.now (not (eqb home 0))) reason.new reply.new detail.new
        missing.new result parameter.old parameter.new }
{
    match isup::parameter_of(message, code, home != 0) {
        Ok(octets) => {
            *reason = 0;
            *reply = 0;
            *detail = 0;
            *missing = 0;
            emit::put(parameter, 0, octets.as_slice());
            octets.len()
        }
        Err(why) => {
            let refusal = why.refusal();
            *reason = refusal.reason;
            *reply = refusal.reply;
            *detail = refusal.detail;
            *missing = refusal.missing;
            0
        }
    }
}

#[unsafe(no_mangle)]
pub extern "C" fn mishkolar_isup_caller(
    bytes: &[u8],
    code: &[u8],
    number: &mut [u8; 16],
    id: &mut u64,
    refusal: &mut u64,
) -> usize
    ensures { Calls (decoded code.now bytes.now) id.new refusal.new result number.old number.new }
{
    match isup::caller_of(bytes, code) {
        Ok(caller) => {
            *id = u64::from(caller.id);
            *refusal = 0;
            emit::put(number, 0, caller.number.as_slice());
            caller.number.len()
        }
        Err(why) => {
            *id = 0;
            *refusal = why.refusal();
            0
        }
    }
}

#[unsafe(no_mangle)]
pub extern "C" fn mishkolar_isup_status(cause: u64, refusal: &mut u64) -> u64
    ensures { (result ≡ (status_for cause).status) × (refusal.new ≡ (status_for cause).refusal) }
{
    match isup::status_of(cause) {
        Ok(status) => {
            *refusal = 0;
            status
        }
        Err(why) => {
            *refusal = why.number();
            0
        }
    }
}
