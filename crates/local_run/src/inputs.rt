//! The inputs of a job.
ghost use Rattle.std.specs.Prelude.{◌≡◌, IfOk, IfErr, All, map, true};
ghost use Rattle.flow_types.specs.Serial.{serial};
ghost use Rattle.run_history.specs.Links.{records_of};
ghost use Rattle.run_history.specs.Storage.{is_present};
ghost use Rattle.desk.specs.State.{IsFine};
ghost use Rattle.local_run.specs.Course.{LeavesAlone};
ghost use Rattle.local_run.specs.Jobs.{given_at, IsRefusedDamage, IsWholeInput, ReadsOver};

use desk::{Desk, InputRefused, Terms};
use flow_types::{Given, Port, Rows};
use outside::{Commands, Site};
use std::alloc::Global;
use task_core::Admission;

/// The input at a port.
fn read_port<F: Commands, S: Site, T: Terms, A: Admission>(
    alloc: Global,
    desk: &mut Desk<F, S, T, A>,
    port: &Port,
) -> Result<Given, InputRefused>
    requires present { is_present desk.old.plan (records_of desk.old.moves) port.now.file.0
        ≡ true }
    requires fine { IsFine desk.old.trouble }
    ensures reply { ReadsOver desk.old result desk.new }
    ensures due { IfOk result (λ given. S.tells → T.kept → T.trust
        → given ≡ given_at (serial desk.old.plan F.gives T.sources) port.now) }
    ensures damage { IfErr result (λ why. S.tells → IsRefusedDamage desk.new.plan
        (records_of desk.new.moves) (S.files desk.new.site) why) }
    ensures whole { IfErr result (λ why. S.tells → T.kept → IsWholeInput why) }
    ensures others { S.tells → LeavesAlone S.files S.may_leave S.moment S.images_since
        (λ _. Unit {0}) desk.old.site desk.new.site }
{
    let content = match desk.read_input(alloc, port.file) {
        Ok(content) => content,
        Err(why) => return Err(why),
    };
    match port.remote.copy(alloc) {
        Ok(remote) => Ok(Given { remote, content }),
        Err(_) => Err(InputRefused::Memory),
    }
}

/// The inputs at these ports, each as it was logged. Condition: each file is present.
pub(crate) fn read_inputs<F: Commands, S: Site, T: Terms, A: Admission>(
    alloc: Global,
    desk: &mut Desk<F, S, T, A>,
    ports: &[Port],
) -> Result<Rows<Given>, InputRefused>
    requires present { All (λ port. is_present desk.old.plan (records_of desk.old.moves)
        port.file.0 ≡ true) ports.now }
    requires fine { IsFine desk.old.trouble }
    ensures reply { ReadsOver desk.old result desk.new }
    ensures due { IfOk result (λ inputs. S.tells → T.kept → T.trust
        → inputs ≡ map (given_at (serial desk.old.plan F.gives T.sources)) ports.now) }
    ensures damage { IfErr result (λ why. S.tells → IsRefusedDamage desk.new.plan
        (records_of desk.new.moves) (S.files desk.new.site) why) }
    ensures whole { IfErr result (λ why. S.tells → T.kept → IsWholeInput why) }
    ensures others { S.tells → LeavesAlone S.files S.may_leave S.moment S.images_since
        (λ _. Unit {0}) desk.old.site desk.new.site }
{
    let mut inputs = Vec::new(alloc);
    for port in ports {
        let given = match read_port(alloc, desk, port) {
            Ok(given) => given,
            Err(why) => return Err(why),
        };
        match inputs.push(given) {
            Ok(()) => {}
            Err(_) => return Err(InputRefused::Memory),
        }
    }
    Ok(Rows::of(inputs))
}
